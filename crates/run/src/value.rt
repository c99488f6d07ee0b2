// Values and stores, for all engines.
ghost use Rattle.std.specs.Prelude.{◌≡◌, length};
ghost use Rattle.rules.specs.Store.{lookup, minus_one, update};
ghost use Rattle.rules.specs.Scope.{Within};

// The engines' one place for minus one, with no test for zero (02 C-12): the quotient is 0 of 0 and 1 of every other value. The sum
// is one of 64 bits: 32 do not hold it.
pub fn minus_one(v: u32) -> u32
    ensures { result ≡ minus_one v }
{
    let value = v as u64;
    (value - (value + 4294967295) / 4294967296) as u32
}

// The value of a variable. The store's first value is variable 1's.
pub fn value_of(store: &[u32], variable: u32) -> u32
    requires { Within (length store.now) variable }
    ensures { result ≡ lookup store.now variable }
{
    let i = (variable - 1) as usize;
    store[i]
}

// Another value for it.
pub fn set_value(store: &mut [u32], variable: u32, value: u32)
    requires { Within (length store.old) variable }
    ensures { store.new ≡ update store.old variable value }
{
    let at = (variable - 1) as usize;
    store[at] = value;
}
