ghost use Rattle.std.specs.Prelude.{◌≡◌, true, map, length};
ghost use Rattle.std.specs.List.{slice_get};
ghost use Rattle.std.specs.Option.{option_map};
ghost use Rattle.effects.specs.Values.{seen};
ghost use Rattle.effects.specs.Model.{InterfaceModel, well_formed};
ghost use Rattle.effects.specs.Calls.{seen_info, info_of, reads, get_answer, filled, all_answer, all_after, set_answer, after_set, seen_dispatch, requires_mut, call_answer, call_mut_answer, after_call};

use crate::value::{Signature, Value};

// Whether a property can be set.
#[derive(Clone, Copy, Debug, PartialEq, Eq)]
pub enum Access {
    Read,
    ReadWrite,
}

#[derive(Clone, Copy, Debug, PartialEq, Eq)]
pub struct PropertyInfo<'a> {
    pub name: &'a [u8],
    pub signature: Signature,
    pub access: Access,
}

// The properties cannot be read: why, as a number that is not 0. The rule tells faults by numbers.
#[derive(Clone, Copy, Debug, PartialEq, Eq)]
pub struct PropertyFault {
    pub number: u32,
}

// Why a property is not set.
#[derive(Clone, Copy, Debug, PartialEq, Eq)]
pub enum SetRefusal {
    NoSuchProperty,
    ReadOnly,
    WrongType,
    OutOfRange,
}

// What became of a call that was handed to an interface: the cases and names of the crate that this is a port of.
#[derive(Clone, Copy, Debug, PartialEq, Eq)]
pub enum DispatchResult2<'call> {
    // The interface does not have the method.
    NotFound,
    // To be tried again with `call_mut` or `set_mut`.
    RequiresMut,
    // The method's answer: success, or an error of this name.
    Async(Result<(), &'call [u8]>),
}

// What is served at a path under a name: properties that are read and set, and methods that are called.
pub trait Interface {
    ghost model: { Self → InterfaceModel };

    fn name(&self) -> &[u8]
        ensures { result.now ≡ (model self.now).name };

    fn property_count(&self) -> usize
        ensures { result ≡ length (model self.now).properties };

    // The properties are numbered by ascending name.
    fn property(&self, i: usize) -> Option<PropertyInfo<'_>>
        ensures { option_map seen_info result ≡ option_map info_of (slice_get (model self.now).properties i) };

    fn method_count(&self) -> usize
        ensures { result ≡ length (model self.now).methods };

    // The methods' names, numbered in ascending order.
    fn method(&self, i: usize) -> Option<&[u8]>
        ensures { option_map (λ x. x.now) result ≡ option_map (λ k. k.name) (slice_get (model self.now).methods i) };

    // None if there is no such property. The value goes into a place that the caller lends, as do those of `get_all`: no
    // memory is allocated for them.
    fn get(&self, name: &[u8], into: &mut Value) -> Option<Result<(), PropertyFault>>
        ensures answer { result ≡ get_answer (reads (model self.now) name.now) }
        ensures value { seen into.new ≡ filled (reads (model self.now) name.now) (seen into.old) };

    // Fills in the value of each property, by its number, and tells how many there are.
    fn get_all(&self, into: &mut [Value; 16]) -> Result<usize, PropertyFault>
        ensures answer { result ≡ all_answer (model self.now) }
        ensures values { map seen into.new ≡ all_after result (model self.now) (map seen into.old) };

    // No property can be set without changing the interface.
    fn set<'call>(&self, _name: &'call [u8], _value: &Value) -> DispatchResult2<'call>
        ensures { seen_dispatch result ≡ requires_mut }
    {
        DispatchResult2::RequiresMut
    }

    fn set_mut(&mut self, name: &[u8], value: &Value) -> Result<(), SetRefusal>
        ensures answer { result ≡ set_answer (model self.old) name.now (seen value.now) }
        ensures after { model self.new ≡ after_set name.now (seen value.now) (model self.old) };

    // Calls a method that changes nothing.
    fn call<'call>(&self, name: &'call [u8]) -> DispatchResult2<'call>
        ensures { seen_dispatch result ≡ call_answer (model self.now) name.now };

    // Calls a method that changes something.
    fn call_mut<'call>(&mut self, name: &'call [u8]) -> DispatchResult2<'call>
        ensures answer { seen_dispatch result ≡ call_mut_answer (model self.old) name.now }
        ensures after { model self.new ≡ after_call name.now (model self.old) };

    ghost well: { (x : Self) → well_formed (model x) ≡ true };
}

// An interface that has its properties and methods in tables, as both makes have. An interface that holds its names itself
// has no such table to lend, and is an `Interface` all the same.
pub trait Tables: Interface {
    // The properties by ascending name: a property's number is its place here.
    fn properties(&self) -> &[PropertyInfo<'_>]
        ensures { map seen_info result.now ≡ map info_of (Self.model self.now).properties };

    // The methods' names in ascending order: a method's number is its place here.
    fn methods(&self) -> &[&[u8]]
        ensures { map (λ x. x.now) result.now ≡ map (λ k. k.name) (Self.model self.now).methods };
}
