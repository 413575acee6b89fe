// The network of activities and links, as definitions and theorems: Kahn's order, loops of links and loops of parents. Its only code is a link as a struct.
#![tactic(auto)]

// A link from one activity to another, each by its number.
#[derive(Clone, Copy)]
pub struct Link {
    pub from: usize,
    pub to: usize,
}
