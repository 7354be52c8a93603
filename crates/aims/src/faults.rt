// Why an aim is not set.
#[derive(Clone, Copy, PartialEq, Eq, Debug)]
pub enum AimFault {
    // the stop, the state or the value is outside its limits
    BadAim,
}
