// The scheduling call as C has it: the answer five numbers in a slice. The crate `sched_c` exports it.
ghost use Rattle.std.specs.Prelude.{◌≡◌};
ghost use Rattle.sched.specs.Answers.{answer_of};
ghost use Rattle.sched.specs.InC.{held_as, numbers_of, called};

use crate::{Accepted, Refusal};

// A number as an i64.
fn held(n: u64) -> i64
    ensures { result ≡ held_as n }
{
    i64::try_from(n).unwrap_or(i64::MAX)
}

// The answer's numbers.
#[tactic(auto, unfolding(crate::specs::InC::numbers_of))]
fn numbers_of(r: Result<Accepted, Refusal>) -> [i64; 5]
    ensures { result ≡ numbers_of (answer_of r) }
{
    match r {
        Ok(a) => [
            0,
            a.finish_day,
            held(a.activities),
            held(a.ignored),
            held(a.open_ends),
        ],
        Err(refusal) => [1, held(refusal.number()), held(refusal.id()), 0, 0],
    }
}

// The scheduling call: `answer` takes 0, finish day, activities, ignored links, open ends; or 1, row, id, 0, 0. Where it is shorter nothing is written.
pub fn neakspuoy_schedule(
    sheet: &[u8],
    results: &mut [i64],
    names: &mut [u32],
    work: &mut [i64],
    answer: &mut [i64],
)
    ensures { record { lent = record { results = results.new; names = names.new; work = work.new }; answer = answer.new } ≡ called sheet.now (record { results = results.old; names = names.old; work = work.old }) answer.old }
{
    if answer.len() < 5 {
        return;
    }
    let r = crate::schedule(sheet, results, names, work);
    answer[..5].copy_from_slice(&numbers_of(r));
}
