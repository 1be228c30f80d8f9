// Piles of several shapes that hold a Delay and then a Tuner: each has the same numbers, and answers alike.
#![tactic(auto)]

#[cfg(test)]
mod tests {
    use banks::bank::{Bank, NoSuchInstance};
    use banks::nothing::Nothing;
    use banks::one::One;
    use banks::pair::Pair;
    use effects::delay::Delay;
    use effects::interface::{DispatchResult2, Interface, PropertyFault, SetRefusal};
    use effects::tuner::Tuner;
    use effects::value::Value;

    fn is_named<B: Bank>(bank: &B, i: usize, name: &[u8]) -> bool {
        bank.name(i) == Ok(name)
    }

    fn has_property<B: Bank>(bank: &B, i: usize, k: usize, name: &[u8]) -> bool {
        matches!(bank.property(i, k), Ok(Some(p)) if p.name == name)
    }

    fn has_method<B: Bank>(bank: &B, i: usize, k: usize, name: &[u8]) -> bool {
        bank.method(i, k) == Ok(Some(name))
    }

    // Whether the property's value comes into the lent place.
    fn holds<B: Bank>(bank: &B, i: usize, name: &[u8], mut place: Value, value: Value) -> bool {
        bank.get(i, name, &mut place) == Ok(Some(Ok(()))) && place == value
    }

    // Two instances, each under its number, and none past them.
    fn lists<B: Bank>(bank: &B) -> bool {
        let mut ok = bank.len() == 2;
        ok &= is_named(bank, 0, b"com.example.Pedal.Delay");
        ok &= is_named(bank, 1, b"com.example.Pedal.Tuner");
        ok &= bank.name(2) == Err(NoSuchInstance);
        ok &= bank.property_count(0) == Ok(3);
        ok &= bank.property_count(1) == Ok(2);
        ok &= bank.property_count(65536) == Err(NoSuchInstance);
        ok &= has_property(bank, 0, 2, b"Label");
        ok &= has_property(bank, 1, 0, b"Cents");
        ok &= bank.property(1, 2) == Ok(None);
        ok &= bank.method_count(1) == Ok(1);
        ok &= has_method(bank, 0, 1, b"Check");
        ok &= has_method(bank, 1, 0, b"Hold");
        ok &= bank.method(2, 0) == Err(NoSuchInstance);
        ok
    }

    // A call on one leaves the other.
    fn changes<B: Bank>(bank: &mut B) -> bool {
        let value = Value::U32(901);
        let mut ok = bank.set(0, b"Feedback", &value) == Ok(DispatchResult2::RequiresMut);
        ok &= bank.set_mut(0, b"Feedback", &value) == Ok(Ok(()));
        ok &= bank.set_mut(1, b"Feedback", &value) == Ok(Err(SetRefusal::NoSuchProperty));
        ok &= bank.set_mut(2, b"Feedback", &value) == Err(NoSuchInstance);
        ok &= holds(bank, 0, b"Feedback", Value::Bool(false), Value::U32(901));
        ok &= holds(bank, 1, b"Locked", Value::U32(0), Value::Bool(false));
        ok &= matches!(bank.call(0, b"Check"), Ok(DispatchResult2::Async(Err(_))));
        ok &= bank.call(1, b"Hold") == Ok(DispatchResult2::RequiresMut);
        ok &= bank.call_mut(0, b"Hold") == Ok(DispatchResult2::NotFound);
        ok &= bank.call_mut(1, b"Hold") == Ok(DispatchResult2::Async(Ok(())));
        ok &= bank.call_mut(2, b"Hold") == Err(NoSuchInstance);
        ok &= holds(bank, 1, b"Locked", Value::U32(0), Value::Bool(true));
        ok &= holds(bank, 0, b"Bypassed", Value::U32(0), Value::Bool(false));
        ok
    }

    // The Tuner is unplugged, and the Delay is not.
    fn is_unplugged<B: Bank>(bank: &B) -> bool {
        let mut value = Value::Bool(false);
        let mut all = [value; 16];
        let mut ok = bank.get(1, b"Cents", &mut value)
            == Ok(Some(Err(PropertyFault { number: 1 })));
        ok &= bank.get_all(1, &mut all) == Ok(Err(PropertyFault { number: 1 }));
        ok &= bank.get_all(2, &mut all) == Err(NoSuchInstance);
        ok &= bank.get_all(0, &mut all) == Ok(Ok(3));
        ok
    }

    fn serves<B: Bank>(bank: &mut B) -> bool {
        let listed = lists(bank);
        let changed = changes(bank);
        listed && changed
    }

    fn delay() -> One<Delay> {
        One { of: Delay::new() }
    }

    fn tuner() -> One<Tuner> {
        One { of: Tuner::new() }
    }

    #[test]
    fn two_in_a_pair(rt: HostRuntime) {
        let mut bank = Pair {
            first: delay(),
            second: tuner(),
        };
        assert!(rt; serves(&mut bank));
    }

    #[test]
    fn a_chain_of_pairs(rt: HostRuntime) {
        let tail = Pair {
            first: tuner(),
            second: Nothing,
        };
        let mut bank = Pair {
            first: Nothing,
            second: Pair {
                first: delay(),
                second: tail,
            },
        };
        assert!(rt; serves(&mut bank));
    }

    #[test]
    fn a_pair_of_pairs(rt: HostRuntime) {
        let front = Pair {
            first: delay(),
            second: Nothing,
        };
        let mut bank = Pair {
            first: front,
            second: Pair {
                first: Nothing,
                second: tuner(),
            },
        };
        assert!(rt; serves(&mut bank));
    }

    #[test]
    fn a_part_is_reached(rt: HostRuntime) {
        let mut bank = Pair {
            first: delay(),
            second: tuner(),
        };
        bank.second.of.unplug();
        assert!(rt; is_unplugged(&bank));
        bank.second.of.plug_in();
        assert!(rt; holds(&bank, 1, b"Locked", Value::U32(0), Value::Bool(false)));
    }
}
