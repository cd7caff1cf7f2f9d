//! Sets of attributes. No contract covers the operators or what `iter` and `iter_names` yield, since
//! `bitflag_items!` writes them.

use bitflags::Flags;
use gix_config_value::color::Attribute;
use std::test::Fail;

/// An operator, its result, and the result of the method.
type Operator = (&'static str, Attribute, Attribute);

/// The operators on two sets, and those that change the first set.
fn operators(a: Attribute, b: Attribute) -> [Operator; 8] {
    let (mut or, mut and, mut xor, mut minus) = (a, a, a, a);
    or |= b;
    and &= b;
    xor ^= b;
    minus -= b;
    [
        ("|", a | b, a.union(b)),
        ("&", a & b, a.intersection(b)),
        ("^", a ^ b, a.symmetric_difference(b)),
        ("-", a - b, a.difference(b)),
        ("|=", or, a.union(b)),
        ("&=", and, a.intersection(b)),
        ("^=", xor, a.symmetric_difference(b)),
        ("-=", minus, a.difference(b)),
    ]
}

#[test]
fn operators_are_the_calls(rt: HostRuntime) {
    let sets = [0, 1 << 1, 6, 3, Attribute::all().bits()].map(Attribute::from_bits_retain);
    for a in sets {
        assert!(rt; !a == a.complement());
        for b in sets {
            for (operator, given, wanted) in operators(a, b) {
                assert!(rt; given == wanted, "{operator}");
            }
        }
    }
}

#[test]
fn goes_over_the_constants_that_are_set(rt: HostRuntime) -> Result<(), Fail> {
    let set = Attribute::from_bits_retain(7);
    let items: Vec<Attribute> = set.iter().collect(rt.alloc())?;
    let unknown = Attribute::from_bits_retain(1);
    let wanted = [Attribute::BOLD, Attribute::DIM, unknown];
    assert!(rt; items.as_slice() == wanted.as_slice());
    let names: Vec<(&str, Attribute)> = set.iter_names().collect(rt.alloc())?;
    let wanted = [("BOLD", Attribute::BOLD), ("DIM", Attribute::DIM)];
    assert!(rt; names.as_slice() == wanted.as_slice());
    Ok(())
}
