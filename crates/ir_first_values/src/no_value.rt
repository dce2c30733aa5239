use hw_base::OutOfMemory;

/// Why no value was made.
#[derive(Clone, Copy, Debug, PartialEq, Eq)]
pub(crate) enum NoValue {
    /// The constant isn't a value of the type that is asked for.
    RuleBroken,
    OutOfMemory,
}

impl From<OutOfMemory> for NoValue {
    ghost use Rattle.std.specs.Prelude.{◌≡◌};
    ghost use Rattle.ir_first_values.specs.declared.no_value.NoValue.TheVariants.{OutOfMemory as NoMemory};

    ghost from_gives = { λ _ e. e ≡ NoMemory };

    fn from(_: OutOfMemory) -> Self {
        NoValue::OutOfMemory
    }
}
