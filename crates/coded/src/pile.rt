// A bearer and the coding piled on it. Nothing but taking it apart reaches below.
#[derive(Drop)]
pub struct Coded<B, C> {
    pub(crate) below: B,
    pub(crate) coding: C,
}
