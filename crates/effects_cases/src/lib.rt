// Both makes of interface, at every property, method and refusal.
#![tactic(auto)]

#[cfg(test)]
mod tests {
    use effects::delay::Delay;
    use effects::interface::{
        Access, DispatchResult2, Interface, PropertyFault, PropertyInfo, SetRefusal,
    };
    use effects::text::Text;
    use effects::tuner::Tuner;
    use effects::value::{Signature, Value};
    use std::test::Fail;

    // What stands in a lent place before a call.
    const BEFORE: Value = Value::U32(4294967295);

    const SUCCESS: DispatchResult2<'static> = DispatchResult2::Async(Ok(()));

    // What is told of the property of number i: whether it has this name, type and access.
    fn has_property<I: Interface>(
        of: &I,
        i: usize,
        name: &[u8],
        signature: Signature,
        access: Access,
    ) -> bool {
        let told = PropertyInfo {
            name,
            signature,
            access,
        };
        of.property(i) == Some(told)
    }

    fn has_method<I: Interface>(of: &I, i: usize, name: &[u8]) -> bool {
        of.method(i) == Some(name)
    }

    #[test]
    fn texts(rt: HostRuntime) {
        assert!(rt; Text::new(b"").is_some());
        assert!(rt; Text::new(&[32; 64]).is_some());
        assert!(rt; Text::new(&[32; 65]).is_none());
        assert!(rt; Text::new(&[126, 32]).is_some());
        assert!(rt; Text::new(&[65, 31]).is_none());
        assert!(rt; Text::new(&[127, 65]).is_none());
        assert_eq!(rt; Signature::Bool.code(), b'b');
        assert_eq!(rt; Signature::I32.code(), b'i');
        assert_eq!(rt; Signature::U32.code(), b'u');
        assert_eq!(rt; Signature::Str.code(), b's');
        assert_eq!(rt; Value::Bool(true).value_signature(), Signature::Bool);
        assert_eq!(rt; Value::Str(Text::empty()).value_signature(), Signature::Str);
    }

    #[test]
    fn printed(rt: HostRuntime) -> Result<(), Fail> {
        let Some(label) = Text::new(b"a b") else {
            return Err(Fail::new("a text"));
        };
        let numbers = format!(in rt.alloc(); "{} {}", Value::I32(-50), Value::U32(999))?;
        assert_eq!(rt; numbers.as_str(), "-50 999");
        let words = format!(in rt.alloc(); "{} {}", Value::Bool(true), Value::Str(label))?;
        assert_eq!(rt; words.as_str(), "true \"a b\"");
        let kinds = format!(in rt.alloc(); "{} {}", Access::ReadWrite, Signature::Str)?;
        assert_eq!(rt; kinds.as_str(), "readwrite s");
        Ok(())
    }

    #[test]
    fn listings(rt: HostRuntime) {
        let d = Delay::new();
        assert_eq!(rt; d.name(), b"com.example.Pedal.Delay".as_slice());
        assert_eq!(rt; d.property_count(), 3);
        assert!(rt; has_property(&d, 0, b"Bypassed", Signature::Bool, Access::Read));
        assert!(rt; has_property(&d, 1, b"Feedback", Signature::U32, Access::ReadWrite));
        assert!(rt; has_property(&d, 2, b"Label", Signature::Str, Access::ReadWrite));
        assert!(rt; d.property(3).is_none());
        assert_eq!(rt; d.method_count(), 2);
        assert!(rt; has_method(&d, 0, b"Bypass"));
        assert!(rt; has_method(&d, 1, b"Check"));
        assert!(rt; d.method(2).is_none());
        let t = Tuner::new();
        assert_eq!(rt; t.name(), b"com.example.Pedal.Tuner".as_slice());
        assert_eq!(rt; t.property_count(), 2);
        assert!(rt; has_property(&t, 0, b"Cents", Signature::I32, Access::Read));
        assert!(rt; has_property(&t, 1, b"Locked", Signature::Bool, Access::Read));
        assert!(rt; t.property(2).is_none());
        assert_eq!(rt; t.method_count(), 1);
        assert!(rt; has_method(&t, 0, b"Hold"));
        assert!(rt; t.method(1).is_none());
    }

    #[test]
    fn delay_reads_and_writes(rt: HostRuntime) -> Result<(), Fail> {
        let mut d = Delay::new();
        let mut v = BEFORE;
        assert_eq!(rt; d.get(b"Speed", &mut v), None);
        assert_eq!(rt; v, BEFORE);
        assert_eq!(rt; d.get(b"Bypassed", &mut v), Some(Ok(())));
        assert_eq!(rt; v, Value::Bool(false));
        assert_eq!(rt; d.get(b"Feedback", &mut v), Some(Ok(())));
        assert_eq!(rt; v, Value::U32(0));
        assert_eq!(rt; d.get(b"Label", &mut v), Some(Ok(())));
        assert_eq!(rt; v, Value::Str(Text::empty()));
        assert_eq!(rt; d.set(b"Speed", &v), DispatchResult2::RequiresMut);
        assert_eq!(rt;
            d.set_mut(b"Speed", &Value::U32(1)),
            Err(SetRefusal::NoSuchProperty)
        );
        assert_eq!(rt;
            d.set_mut(b"Bypassed", &Value::U32(1)),
            Err(SetRefusal::ReadOnly)
        );
        assert_eq!(rt;
            d.set_mut(b"Feedback", &Value::I32(1)),
            Err(SetRefusal::WrongType)
        );
        assert_eq!(rt;
            d.set_mut(b"Label", &Value::Bool(true)),
            Err(SetRefusal::WrongType)
        );
        assert_eq!(rt;
            d.set_mut(b"Feedback", &Value::U32(1000)),
            Err(SetRefusal::OutOfRange)
        );
        assert_eq!(rt; d.set_mut(b"Feedback", &Value::U32(999)), Ok(()));
        let Some(label) = Text::new(&[126; 64]) else {
            return Err(Fail::new("a text"));
        };
        assert_eq!(rt; d.set_mut(b"Label", &Value::Str(label)), Ok(()));
        let mut all = [BEFORE; 16];
        assert_eq!(rt; d.get_all(&mut all), Ok(3));
        assert_eq!(rt; all[0], Value::Bool(false));
        assert_eq!(rt; all[1], Value::U32(999));
        assert_eq!(rt; all[2], Value::Str(label));
        assert_eq!(rt; label.as_bytes(), [126; 64].as_slice());
        assert_eq!(rt; all[3], BEFORE);
        Ok(())
    }

    #[test]
    fn delay_methods(rt: HostRuntime) {
        let mut d = Delay::new();
        assert_eq!(rt; d.call(b"check"), DispatchResult2::NotFound);
        assert_eq!(rt; d.call(b"Bypass"), DispatchResult2::RequiresMut);
        assert_eq!(rt; d.set_mut(b"Feedback", &Value::U32(900)), Ok(()));
        assert_eq!(rt; d.call(b"Check"), SUCCESS);
        assert_eq!(rt; d.set_mut(b"Feedback", &Value::U32(901)), Ok(()));
        assert_eq!(rt;
            d.call(b"Check"),
            DispatchResult2::Async(Err(b"com.example.Pedal.Error.TooHot"))
        );
        assert_eq!(rt; d.call_mut(b"Check"), DispatchResult2::NotFound);
        assert_eq!(rt; d.call_mut(b""), DispatchResult2::NotFound);
        let mut v = BEFORE;
        assert_eq!(rt; d.call_mut(b"Bypass"), SUCCESS);
        assert_eq!(rt; d.get(b"Bypassed", &mut v), Some(Ok(())));
        assert_eq!(rt; v, Value::Bool(true));
        assert_eq!(rt; d.call_mut(b"Bypass"), SUCCESS);
        assert_eq!(rt; d.get(b"Bypassed", &mut v), Some(Ok(())));
        assert_eq!(rt; v, Value::Bool(false));
        assert_eq!(rt; d.get(b"Feedback", &mut v), Some(Ok(())));
        assert_eq!(rt; v, Value::U32(901));
    }

    #[test]
    fn tuner_reads_and_writes(rt: HostRuntime) {
        let mut t = Tuner::new();
        let mut all = [BEFORE; 16];
        assert_eq!(rt; t.set_cents(-51), Err(SetRefusal::OutOfRange));
        assert_eq!(rt; t.set_cents(51), Err(SetRefusal::OutOfRange));
        assert_eq!(rt; t.get_all(&mut all), Ok(2));
        assert_eq!(rt; all[0], Value::I32(0));
        assert_eq!(rt; all[1], Value::Bool(false));
        assert_eq!(rt; all[2], BEFORE);
        assert_eq!(rt; t.set_cents(-50), Ok(()));
        assert_eq!(rt; t.set_cents(50), Ok(()));
        let mut v = BEFORE;
        assert_eq!(rt; t.get(b"Cents", &mut v), Some(Ok(())));
        assert_eq!(rt; v, Value::I32(50));
        assert_eq!(rt;
            t.set_mut(b"Cents", &Value::I32(0)),
            Err(SetRefusal::ReadOnly)
        );
        assert_eq!(rt;
            t.set_mut(b"Locked", &Value::Bool(true)),
            Err(SetRefusal::ReadOnly)
        );
        assert_eq!(rt;
            t.set_mut(b"locked", &Value::Bool(true)),
            Err(SetRefusal::NoSuchProperty)
        );
    }

    #[test]
    fn tuner_unplugged(rt: HostRuntime) {
        let mut t = Tuner::new();
        t.unplug();
        let mut v = BEFORE;
        let mut all = [BEFORE; 16];
        assert_eq!(rt;
            t.get(b"Locked", &mut v),
            Some(Err(PropertyFault { number: 1 }))
        );
        assert_eq!(rt; t.get(b"Pitch", &mut v), None);
        assert_eq!(rt; t.get_all(&mut all), Err(PropertyFault { number: 1 }));
        assert_eq!(rt; v, BEFORE);
        assert_eq!(rt; all[0], BEFORE);
        assert_eq!(rt; t.call(b"Hold"), DispatchResult2::RequiresMut);
        assert_eq!(rt; t.call(b"Held"), DispatchResult2::NotFound);
        assert_eq!(rt; t.call_mut(b"Held"), DispatchResult2::NotFound);
        assert_eq!(rt; t.call_mut(b"Hold"), SUCCESS);
        t.plug_in();
        assert_eq!(rt; t.get(b"Locked", &mut v), Some(Ok(())));
        assert_eq!(rt; v, Value::Bool(true));
    }
}
