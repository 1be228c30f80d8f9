ghost use Rattle.std.specs.Prelude.{[]};
ghost use Rattle.std.proofs.Common.{rules};

use crate::bank::{Answer, Bank, NoSuchInstance};
use effects::interface::{DispatchResult2, PropertyFault, PropertyInfo, SetRefusal};
use effects::value::Value;

// A bank without interfaces.
#[derive(Drop)]
pub struct Nothing;

impl Bank for Nothing {
    ghost models = { λ _. [] };

    ghost few = { Prim.search rules };

    ghost well = { Prim.search rules };

    fn len(&self) -> usize {
        0
    }

    fn name(&self, _i: usize) -> Answer<&[u8]> {
        Err(NoSuchInstance)
    }

    fn property_count(&self, _i: usize) -> Answer<usize> {
        Err(NoSuchInstance)
    }

    fn property(&self, _i: usize, _k: usize) -> Answer<Option<PropertyInfo<'_>>> {
        Err(NoSuchInstance)
    }

    fn method_count(&self, _i: usize) -> Answer<usize> {
        Err(NoSuchInstance)
    }

    fn method(&self, _i: usize, _k: usize) -> Answer<Option<&[u8]>> {
        Err(NoSuchInstance)
    }

    fn get(
        &self,
        _i: usize,
        _name: &[u8],
        _into: &mut Value,
    ) -> Answer<Option<Result<(), PropertyFault>>> {
        Err(NoSuchInstance)
    }

    fn get_all(&self, _i: usize, _into: &mut [Value; 16]) -> Answer<Result<usize, PropertyFault>> {
        Err(NoSuchInstance)
    }

    fn set_mut(
        &mut self,
        _i: usize,
        _name: &[u8],
        _value: &Value,
    ) -> Answer<Result<(), SetRefusal>> {
        Err(NoSuchInstance)
    }

    fn call<'call>(&self, _i: usize, _name: &'call [u8]) -> Answer<DispatchResult2<'call>> {
        Err(NoSuchInstance)
    }

    fn call_mut<'call>(&mut self, _i: usize, _name: &'call [u8]) -> Answer<DispatchResult2<'call>> {
        Err(NoSuchInstance)
    }
}
