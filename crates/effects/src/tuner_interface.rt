ghost use Rattle.std.specs.Prelude.{◌≡◌, false, pos, negsuc, if◌then◌else◌, ◌==◌};
ghost use Rattle.effects.specs.Values.{whole, seen, in_range};
ghost use Rattle.effects.specs.Calls.{readable};
ghost use Rattle.effects.specs.Makes.{tuner_model, tuner_with, fault_of};
ghost use Rattle.std.proofs.Common.{arith};
ghost use Rattle.std.proofs.lemmas.Int.{ints};
ghost use Rattle.names.specs.Names.{valid};
ghost use Rattle.names.specs.Paths.{bytes_before};
ghost use Rattle.names.specs.Standard.{is_standard, standard_name};
ghost use Rattle.effects.specs.Model.{well_formed};
ghost use Rattle.effects.specs.Fits.{truth-fits, whole-fits, whole-held, fault-fits};

use crate::interface::{
    Access, DispatchResult2, Interface, PropertyFault, PropertyInfo, SetRefusal, Tables,
};
use crate::tuner::Tuner;
use crate::value::{Signature, Value};

// The properties by ascending name.
static PROPERTIES: [PropertyInfo<'static>; 2] = [
    PropertyInfo {
        name: b"Cents",
        signature: Signature::I32,
        access: Access::Read,
    },
    PropertyInfo {
        name: b"Locked",
        signature: Signature::Bool,
        access: Access::Read,
    },
];

// The methods' names in ascending order.
static METHODS: [&[u8]; 1] = [b"Hold"];

impl Tuner {
    pub fn new() -> Tuner
        ensures { tuner_model result ≡ tuner_with (pos 0) false 0 }
    {
        Tuner {
            cents: 0,
            locked: false,
            unplugged: false,
        }
    }

    // Sets Cents, unless it is out of range.
    pub fn set_cents(&mut self, cents: i32) -> Result<(), SetRefusal>
        ensures answer { result ≡ (if in_range (negsuc 49) (pos 50) (whole cents) then Ok tt else Err SetRefusal.OutOfRange) }
        ensures after { tuner_model self.new ≡ (if in_range (negsuc 49) (pos 50) (whole cents) then tuner_with cents self.old.locked (fault_of self.old.unplugged) else tuner_model self.old) }
    {
        if cents < -50 || cents > 50 {
            return Err(SetRefusal::OutOfRange);
        }
        self.cents = cents;
        Ok(())
    }

    // Its properties can no longer be read.
    pub fn unplug(&mut self)
        ensures { tuner_model self.new ≡ tuner_with self.old.cents self.old.locked 1 }
    {
        self.unplugged = true;
    }

    pub fn plug_in(&mut self)
        ensures { tuner_model self.new ≡ tuner_with self.old.cents self.old.locked 0 }
    {
        self.unplugged = false;
    }

    // Whether the properties can be read.
    fn readable(&self) -> Result<(), PropertyFault>
        ensures { result ≡ readable (tuner_model self.now).fault }
    {
        if self.unplugged {
            return Err(PropertyFault { number: 1 });
        }
        Ok(())
    }

    // Fills in the value, unless the properties cannot be read.
    fn fill(&self, value: Value, into: &mut Value) -> Result<(), PropertyFault>
        ensures answer { result ≡ readable (tuner_model self.now).fault }
        ensures value { seen into.new ≡ (if (tuner_model self.now).fault == 0 then seen value else seen into.old) }
    {
        self.readable()?;
        *into = value;
        Ok(())
    }
}

impl Interface for Tuner {
    ghost model = { tuner_model };

    ghost well = { unfold well_formed valid bytes_before is_standard standard_name in
        λ x.
        let cents = whole-fits (negsuc 49) (pos 50) x.cents x.low x.high in
        let held = whole-held x.cents (omega (arith, ints, x.low)) (omega (arith, ints, x.high)) in
        let locked = truth-fits x.locked in
        let fault = fault-fits x.unplugged in
        simp (cents, held, locked, fault) };

    fn name(&self) -> &[u8] {
        b"com.example.Pedal.Tuner"
    }

    fn property_count(&self) -> usize {
        self.properties().len()
    }

    fn property(&self, i: usize) -> Option<PropertyInfo<'_>> {
        self.properties().get(i).copied()
    }

    fn method_count(&self) -> usize {
        self.methods().len()
    }

    fn method(&self, i: usize) -> Option<&[u8]> {
        self.methods().get(i).copied()
    }

    fn get(&self, name: &[u8], into: &mut Value) -> Option<Result<(), PropertyFault>> {
        match name {
            b"Cents" => Some(self.fill(Value::I32(self.cents), into)),
            b"Locked" => Some(self.fill(Value::Bool(self.locked), into)),
            _ => None,
        }
    }

    fn get_all(&self, into: &mut [Value; 16]) -> Result<usize, PropertyFault> {
        self.readable()?;
        into[0] = Value::I32(self.cents);
        into[1] = Value::Bool(self.locked);
        Ok(self.property_count())
    }

    fn set_mut(&mut self, name: &[u8], _value: &Value) -> Result<(), SetRefusal> {
        match name {
            b"Cents" | b"Locked" => Err(SetRefusal::ReadOnly),
            _ => Err(SetRefusal::NoSuchProperty),
        }
    }

    fn call<'call>(&self, name: &'call [u8]) -> DispatchResult2<'call> {
        match name {
            b"Hold" => DispatchResult2::RequiresMut,
            _ => DispatchResult2::NotFound,
        }
    }

    fn call_mut<'call>(&mut self, name: &'call [u8]) -> DispatchResult2<'call> {
        match name {
            b"Hold" => {
                self.locked = true;
                DispatchResult2::Async(Ok(()))
            }
            _ => DispatchResult2::NotFound,
        }
    }
}

impl Tables for Tuner {
    fn properties(&self) -> &[PropertyInfo<'_>] {
        &PROPERTIES
    }

    fn methods(&self) -> &[&[u8]] {
        &METHODS
    }
}
