// An open receipt, as its pass lists it: the place of its entry, and the serial of its value.
#[derive(Clone, Copy)]
pub struct Hold {
    pub place: u64,
    pub class: u8,
    pub key: u128,
    pub serial: u64,
}
