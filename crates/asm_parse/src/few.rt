//! A list that mostly has one element.

ghost use Rattle.std.specs.Prelude.{◌≡◌};
ghost use Rattle.asm_parse.specs.Few.{all};

/// A list. A single element is kept in place and takes no other memory.
#[derive(Debug, Drop)]
pub enum Few<T> {
    One([T; 1]),
    Many(Vec<T>),
}

impl<T> Few<T> {
    /// All elements, in order.
    pub fn as_slice(&self) -> &[T]
        ensures { result.now ≡ all self.now }
    {
        match self {
            Few::One(alone) => alone,
            Few::Many(things) => things,
        }
    }
}
