/// The flags that instructions read (Intel SDM volume 1, 3.4.3): carry, zero, sign and overflow.
#[derive(Clone, Copy)]
pub(crate) enum Flag {
    Cf,
    Zf,
    Sf,
    Of,
}
