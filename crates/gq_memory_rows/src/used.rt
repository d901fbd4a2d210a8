// Values that are owned while they are used.
ghost use Rattle.std.specs.Prelude.{IfOk};
ghost use Rattle.std.specs.Fn.{FnOnceTakesAtMut};

// What a function that may change a value gives, where the value was made. The value is dropped then: here, since the drop of a great type takes seconds
// to prove in each function that owns it, and that of any type takes none.
pub(crate) fn used<T: Drop, E, R, F: FnOnce(&mut T) -> R + Drop>(
    made: Result<T, E>,
    f: F,
) -> Result<R, E>
    requires { IfOk made (λ value. FnOnceTakesAtMut F.FnOnce f value) }
{
    match made {
        Ok(mut value) => Ok(f(&mut value)),
        Err(refused) => Err(refused),
    }
}
