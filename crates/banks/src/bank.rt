ghost use Rattle.std.specs.Prelude.{◌≡◌, ◌≤◌, true, List, map, length};
ghost use Rattle.std.specs.List.{slice_get};
ghost use Rattle.std.specs.Option.{option_map};
ghost use Rattle.names.specs.Names.{all};
ghost use Rattle.effects.specs.Values.{seen};
ghost use Rattle.effects.specs.Model.{InterfaceModel, well_formed};
ghost use Rattle.effects.specs.Calls.{seen_info, info_of, reads, get_answer, filled, all_answer, all_after, set_answer, after_set, seen_dispatch, requires_mut, call_answer, call_mut_answer, after_call};
ghost use Rattle.banks.specs.Rows.{asked, lent, through, changed};

use effects::interface::{DispatchResult2, PropertyFault, PropertyInfo, SetRefusal};
use effects::value::Value;

// A bank has no interface of this number.
#[derive(Clone, Copy, Debug, PartialEq, Eq)]
pub struct NoSuchInstance;

// What an interface of a bank answers, if the bank has it.
pub type Answer<T> = Result<T, NoSuchInstance>;

// Interfaces numbered from 0, at most 65,536. A call on one leaves all others unchanged.
// Each make forwards call by call: the gate refuses a function that hands out a `&dyn Interface`, and a closure that is
// passed one cannot hand out a borrowed name.
pub trait Bank {
    ghost models: { Self → List InterfaceModel };

    fn len(&self) -> usize
        ensures { result ≡ length (models self.now) };

    fn name(&self, i: usize) -> Answer<&[u8]>
        ensures { through (λ x. x.now) result ≡ asked (λ m. m.name) (slice_get (models self.now) i) };

    fn property_count(&self, i: usize) -> Answer<usize>
        ensures { result ≡ asked (λ m. length m.properties) (slice_get (models self.now) i) };

    fn property(&self, i: usize, k: usize) -> Answer<Option<PropertyInfo<'_>>>
        ensures { through (option_map seen_info) result ≡ asked (λ m. option_map info_of (slice_get m.properties k)) (slice_get (models self.now) i) };

    fn method_count(&self, i: usize) -> Answer<usize>
        ensures { result ≡ asked (λ m. length m.methods) (slice_get (models self.now) i) };

    fn method(&self, i: usize, k: usize) -> Answer<Option<&[u8]>>
        ensures { through (option_map (λ x. x.now)) result ≡ asked (λ m. option_map (λ q. q.name) (slice_get m.methods k)) (slice_get (models self.now) i) };

    fn get(
        &self,
        i: usize,
        name: &[u8],
        into: &mut Value,
    ) -> Answer<Option<Result<(), PropertyFault>>>
        ensures answer { result ≡ asked (λ m. get_answer (reads m name.now)) (slice_get (models self.now) i) }
        ensures value { seen into.new ≡ lent (λ m. filled (reads m name.now)) (slice_get (models self.now) i) (seen into.old) };

    fn get_all(&self, i: usize, into: &mut [Value; 16]) -> Answer<Result<usize, PropertyFault>>
        ensures answer { result ≡ asked all_answer (slice_get (models self.now) i) }
        ensures values { map seen into.new ≡ lent (λ m. all_after (all_answer m) m) (slice_get (models self.now) i) (map seen into.old) };

    // No property can be set without changing the interface.
    fn set<'call>(
        &self,
        i: usize,
        _name: &'call [u8],
        _value: &Value,
    ) -> Answer<DispatchResult2<'call>>
        ensures { through seen_dispatch result ≡ asked (λ _. requires_mut) (slice_get (models self.now) i) }
    {
        self.name(i)?;
        Ok(DispatchResult2::RequiresMut)
    }

    fn set_mut(&mut self, i: usize, name: &[u8], value: &Value) -> Answer<Result<(), SetRefusal>>
        ensures answer { result ≡ asked (λ m. set_answer m name.now (seen value.now)) (slice_get (models self.old) i) }
        ensures after { models self.new ≡ changed (after_set name.now (seen value.now)) (models self.old) i };

    fn call<'call>(&self, i: usize, name: &'call [u8]) -> Answer<DispatchResult2<'call>>
        ensures { through seen_dispatch result ≡ asked (λ m. call_answer m name.now) (slice_get (models self.now) i) };

    fn call_mut<'call>(&mut self, i: usize, name: &'call [u8]) -> Answer<DispatchResult2<'call>>
        ensures answer { through seen_dispatch result ≡ asked (λ m. call_mut_answer m name.now) (slice_get (models self.old) i) }
        ensures after { models self.new ≡ changed (after_call name.now) (models self.old) i };

    ghost few: { (x : Self) → length (models x) ≤ 65536 };

    ghost well: { (x : Self) → all well_formed (models x) ≡ true };
}
