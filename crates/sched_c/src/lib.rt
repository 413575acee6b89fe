// The scheduling call in C's form: each slice a pointer with its count of elements, the answer five numbers in a slice.
#![tactic(auto)]

ghost use Rattle.std.specs.Prelude.{◌≡◌};
ghost use Rattle.sched.specs.InC.{called};

// It exports `sched::c::neakspuoy_schedule`, with the same clause: a crate is built as a library or as a static library, and the programs take the former.
// The scheduling call: `answer` takes 0, finish day, activities, ignored links, open ends; or 1, row, id, 0, 0. Where it is shorter nothing is written.
#[unsafe(no_mangle)]
pub extern "C" fn neakspuoy_schedule(
    sheet: &[u8],
    results: &mut [i64],
    names: &mut [u32],
    work: &mut [i64],
    answer: &mut [i64],
)
    ensures { record { lent = record { results = results.new; names = names.new; work = work.new }; answer = answer.new } ≡ called sheet.now (record { results = results.old; names = names.old; work = work.old }) answer.old }
{
    sched::c::neakspuoy_schedule(sheet, results, names, work, answer)
}
