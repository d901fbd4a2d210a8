// Numbers that are made of names.
ghost use Rattle.std.specs.Prelude.{◌≡◌};
ghost use Rattle.gq_program.specs.Name_keys.{key_of};

/// A number that is made of a name: names with other numbers are other ones, so that a search among many names goes over numbers.
pub fn key_of(name: &[u8]) -> u64
    ensures { result ≡ key_of name.now }
{
    let mut key = 0_u64;
    for letter in name {
        key = key.wrapping_mul(257).wrapping_add(u64::from(*letter));
    }
    key
}
