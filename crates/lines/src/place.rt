use bearer::side::Side;

// Where a string stands in the course of things: whether it opens a dialogue, who gave it, and the dialogue's number.
#[derive(Clone, Copy)]
pub struct Place {
    pub opening: bool,
    pub from: Side,
    pub number: u32,
}
