ghost use Rattle.std.specs.Prelude.{◌≡◌, ◌^◌, false, [], codes, nat_lt};
ghost use Rattle.effects.specs.Values.{seen};
ghost use Rattle.effects.specs.Calls.{set_answer, after_set, seen_reply};
ghost use Rattle.effects.specs.Makes.{delay_model, delay_with, check};
ghost use Rattle.std.proofs.Common.{arith};
ghost use Rattle.std.proofs.lemmas.Bool.{lt-ltb};
ghost use Rattle.names.specs.Names.{valid};
ghost use Rattle.names.specs.Paths.{bytes_before};
ghost use Rattle.names.specs.Standard.{is_standard, standard_name};
ghost use Rattle.effects.specs.Model.{well_formed};
ghost use Rattle.effects.specs.Fits.{truth-fits, count_fits, text-fits, text-valid};
ghost use Rattle.effects.specs.DelayInterfaceLemmas.{checks};

use crate::delay::Delay;
use crate::interface::{
    Access, DispatchResult2, Interface, PropertyFault, PropertyInfo, SetRefusal, Tables,
};
use crate::text::Text;
use crate::value::{Signature, Value};

// The properties by ascending name.
static PROPERTIES: [PropertyInfo<'static>; 3] = [
    PropertyInfo {
        name: b"Bypassed",
        signature: Signature::Bool,
        access: Access::Read,
    },
    PropertyInfo {
        name: b"Feedback",
        signature: Signature::U32,
        access: Access::ReadWrite,
    },
    PropertyInfo {
        name: b"Label",
        signature: Signature::Str,
        access: Access::ReadWrite,
    },
];

// The methods' names in ascending order.
static METHODS: [&[u8]; 2] = [b"Bypass", b"Check"];

impl Delay {
    pub fn new() -> Delay
        ensures { delay_model result ≡ delay_with false 0 [] }
    {
        Delay {
            bypassed: false,
            feedback: 0,
            label: Text::empty(),
        }
    }

    // Sets Feedback to a number of at most 999.
    fn set_feedback(&mut self, value: &Value) -> Result<(), SetRefusal>
        ensures answer { result ≡ set_answer (delay_model self.old) (codes "Feedback") (seen value.now) }
        ensures after { delay_model self.new ≡ after_set (codes "Feedback") (seen value.now) (delay_model self.old) }
    {
        let Value::U32(n) = *value else {
            return Err(SetRefusal::WrongType);
        };
        if n > 999 {
            return Err(SetRefusal::OutOfRange);
        }
        self.feedback = n;
        Ok(())
    }

    // Sets Label to a text.
    fn set_label(&mut self, value: &Value) -> Result<(), SetRefusal>
        ensures answer { result ≡ set_answer (delay_model self.old) (codes "Label") (seen value.now) }
        ensures after { delay_model self.new ≡ after_set (codes "Label") (seen value.now) (delay_model self.old) }
    {
        let Value::Str(t) = *value else {
            return Err(SetRefusal::WrongType);
        };
        self.label = t;
        Ok(())
    }

    // An error where much is fed back.
    fn check(&self) -> Result<(), &'static [u8]>
        ensures { seen_reply result ≡ check (delay_model self.now).properties 0 }
    {
        if self.feedback > 900 {
            return Err(b"com.example.Pedal.Error.TooHot");
        }
        Ok(())
    }
}

impl Interface for Delay {
    ghost model = { delay_model };

    ghost well = { unfold well_formed valid bytes_before is_standard standard_name in
        λ x.
        let limit = x.limit in
        let bypassed = truth-fits x.bypassed in
        let feedback = count_fits 0 999 x.feedback (omega arith) (omega arith) in
        let held = lt-ltb x.feedback (2 ^ 32) (omega arith) in
        let label = text-fits x.label in
        let text = text-valid x.label in
        let check = checks (nat_lt 900 x.feedback) in
        simp (bypassed, feedback, held, label, text, check) };

    fn name(&self) -> &[u8] {
        b"com.example.Pedal.Delay"
    }

    fn property_count(&self) -> usize {
        self.properties().len()
    }

    fn property(&self, i: usize) -> Option<PropertyInfo<'_>> {
        self.properties().get(i).copied()
    }

    fn method_count(&self) -> usize {
        self.methods().len()
    }

    fn method(&self, i: usize) -> Option<&[u8]> {
        self.methods().get(i).copied()
    }

    fn get(&self, name: &[u8], into: &mut Value) -> Option<Result<(), PropertyFault>> {
        *into = match name {
            b"Bypassed" => Value::Bool(self.bypassed),
            b"Feedback" => Value::U32(self.feedback),
            b"Label" => Value::Str(self.label),
            _ => return None,
        };
        Some(Ok(()))
    }

    fn get_all(&self, into: &mut [Value; 16]) -> Result<usize, PropertyFault> {
        into[0] = Value::Bool(self.bypassed);
        into[1] = Value::U32(self.feedback);
        into[2] = Value::Str(self.label);
        Ok(self.property_count())
    }

    fn set_mut(&mut self, name: &[u8], value: &Value) -> Result<(), SetRefusal> {
        match name {
            b"Bypassed" => Err(SetRefusal::ReadOnly),
            b"Feedback" => self.set_feedback(value),
            b"Label" => self.set_label(value),
            _ => Err(SetRefusal::NoSuchProperty),
        }
    }

    fn call<'call>(&self, name: &'call [u8]) -> DispatchResult2<'call> {
        match name {
            b"Bypass" => DispatchResult2::RequiresMut,
            b"Check" => DispatchResult2::Async(self.check()),
            _ => DispatchResult2::NotFound,
        }
    }

    fn call_mut<'call>(&mut self, name: &'call [u8]) -> DispatchResult2<'call> {
        match name {
            b"Bypass" => {
                self.bypassed = !self.bypassed;
                DispatchResult2::Async(Ok(()))
            }
            _ => DispatchResult2::NotFound,
        }
    }
}

impl Tables for Delay {
    fn properties(&self) -> &[PropertyInfo<'_>] {
        &PROPERTIES
    }

    fn methods(&self) -> &[&[u8]] {
        &METHODS
    }
}
