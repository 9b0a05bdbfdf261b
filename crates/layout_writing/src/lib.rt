// What is answered where a tile layout is written. No functions: the meaning of writing stands in specs/, and that it keeps its promises in proofs/.
#![tactic(auto)]

use answers::Answer;

// The answer, and how many bits were written: none where it is a refusal.
#[derive(Clone, Copy)]
pub struct Written {
    pub answer: Answer,
    pub bits: u32,
}
