ghost use Rattle.std.specs.Prelude.{◌≡◌, ◌+◌, ◌≤◌, min, length};
ghost use Rattle.banks.specs.Rows.{joined, place_of, Stands};
ghost use Rattle.banks.specs.Joined.{joined-few, joined-all};
ghost use Rattle.effects.specs.Model.{well_formed};

use crate::bank::{Answer, Bank, NoSuchInstance};
use effects::interface::{DispatchResult2, PropertyFault, PropertyInfo, SetRefusal};
use effects::value::Value;

// Where a number of a pair is: its number in one of the two.
enum Place {
    First(usize),
    Second(usize),
}

// Two banks in one: the second's numbers follow the first's, and there is none past 65,535.
#[derive(Drop)]
pub struct Pair<A, B> {
    pub first: A,
    pub second: B,
}

// The place of number i, if the first has n.
fn place_of(n: usize, i: usize) -> Answer<Place>
    ensures { result ≡ place_of n i }
{
    if i >= 65536 {
        return Err(NoSuchInstance);
    }
    Ok(if i < n {
        Place::First(i)
    } else {
        Place::Second(i - n)
    })
}

// How many numbers there are, if the first has m and the second n.
fn total(m: usize, n: usize) -> usize
    requires { (m ≤ 65536) × (n ≤ 65536) }
    ensures { result ≡ min (m + n) 65536 }
{
    (m + n).min(65536)
}

impl<A: Bank, B: Bank> Pair<A, B> {
    fn place(&self, i: usize) -> Answer<Place>
        ensures answer { result ≡ place_of (length (A.Bank.models self.now.first)) i }
        ensures stands { Stands (A.Bank.models self.now.first) (B.Bank.models self.now.second) i result }
    {
        place_of(self.first.len(), i)
    }
}

impl<A: Bank, B: Bank> Bank for Pair<A, B> {
    ghost models = { λ s. joined (A.Bank.models s.first) (B.Bank.models s.second) };

    ghost few = { λ x. joined-few (A.Bank.models x.first) (B.Bank.models x.second) };

    ghost well = { λ x.
        joined-all well_formed (A.Bank.models x.first) (B.Bank.models x.second)
        (A.Bank.well x.first)
        (B.Bank.well x.second) };

    #[tactic(auto, using(crate::specs::Joined::joined_length))]
    fn len(&self) -> usize {
        total(self.first.len(), self.second.len())
    }

    fn name(&self, i: usize) -> Answer<&[u8]> {
        match self.place(i)? {
            Place::First(j) => self.first.name(j),
            Place::Second(j) => self.second.name(j),
        }
    }

    fn property_count(&self, i: usize) -> Answer<usize> {
        match self.place(i)? {
            Place::First(j) => self.first.property_count(j),
            Place::Second(j) => self.second.property_count(j),
        }
    }

    fn property(&self, i: usize, k: usize) -> Answer<Option<PropertyInfo<'_>>> {
        match self.place(i)? {
            Place::First(j) => self.first.property(j, k),
            Place::Second(j) => self.second.property(j, k),
        }
    }

    fn method_count(&self, i: usize) -> Answer<usize> {
        match self.place(i)? {
            Place::First(j) => self.first.method_count(j),
            Place::Second(j) => self.second.method_count(j),
        }
    }

    fn method(&self, i: usize, k: usize) -> Answer<Option<&[u8]>> {
        match self.place(i)? {
            Place::First(j) => self.first.method(j, k),
            Place::Second(j) => self.second.method(j, k),
        }
    }

    fn get(
        &self,
        i: usize,
        name: &[u8],
        into: &mut Value,
    ) -> Answer<Option<Result<(), PropertyFault>>> {
        match self.place(i)? {
            Place::First(j) => self.first.get(j, name, into),
            Place::Second(j) => self.second.get(j, name, into),
        }
    }

    fn get_all(&self, i: usize, into: &mut [Value; 16]) -> Answer<Result<usize, PropertyFault>> {
        match self.place(i)? {
            Place::First(j) => self.first.get_all(j, into),
            Place::Second(j) => self.second.get_all(j, into),
        }
    }

    fn set_mut(&mut self, i: usize, name: &[u8], value: &Value) -> Answer<Result<(), SetRefusal>> {
        match self.place(i)? {
            Place::First(j) => self.first.set_mut(j, name, value),
            Place::Second(j) => self.second.set_mut(j, name, value),
        }
    }

    fn call<'call>(&self, i: usize, name: &'call [u8]) -> Answer<DispatchResult2<'call>> {
        match self.place(i)? {
            Place::First(j) => self.first.call(j, name),
            Place::Second(j) => self.second.call(j, name),
        }
    }

    fn call_mut<'call>(&mut self, i: usize, name: &'call [u8]) -> Answer<DispatchResult2<'call>> {
        match self.place(i)? {
            Place::First(j) => self.first.call_mut(j, name),
            Place::Second(j) => self.second.call_mut(j, name),
        }
    }
}
