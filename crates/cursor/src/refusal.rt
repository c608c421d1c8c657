// By which number reading was refused.
ghost use Rattle.std.specs.Prelude.{◌<◌};

#[derive(Clone, Copy)]
pub struct Refused {
    pub why: u8,
    pub ghost above: { 0 < why },
}
