// Layouts from elsewhere (document 02, W6): the list's lines and what is answered; definitions in
// specs/, and in proofs/ what is proved of them. The crates above hold the code.
#![tactic(auto)]

// A line of a layout: kind, orientation, x and y as `put` gives them.
#[derive(Clone, Copy)]
pub struct PutLine {
    pub kind: u64,
    pub orientation: u64,
    pub x: Option<f64>,
    pub y: Option<f64>,
}

// Accepted or the refusal, and the number of the line that it speaks of: of the lines accepted before
// it; where all are accepted, of all.
#[derive(Clone, Copy)]
pub struct Judgement {
    pub verdict: Result<(), filling::Refusal>,
    pub line: usize,
}
