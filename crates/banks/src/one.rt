ghost use Rattle.std.specs.Prelude.{◌≡◌, [], ◌∷◌};
ghost use Rattle.banks.specs.Rows.{only, through};
ghost use Rattle.std.proofs.Common.{rules};

use crate::bank::{Answer, Bank, NoSuchInstance};
use effects::interface::{DispatchResult2, Interface, PropertyFault, PropertyInfo, SetRefusal};
use effects::value::Value;

// A bank of one interface.
#[derive(Drop)]
pub struct One<I> {
    pub of: I,
}

impl<I: Interface> One<I> {
    // The interface of number i: there is number 0 alone.
    fn only(&self, i: usize) -> Answer<&I>
        ensures { through (λ x. x.now) result ≡ only self.now.of i }
    {
        if i == 0 {
            Ok(&self.of)
        } else {
            Err(NoSuchInstance)
        }
    }
}

impl<I: Interface> Bank for One<I> {
    ghost models = { λ s. I.Interface.model s.of ∷ [] };

    ghost few = { Prim.search rules };

    ghost well = { Prim.search rules };

    fn len(&self) -> usize {
        1
    }

    fn name(&self, i: usize) -> Answer<&[u8]> {
        Ok(self.only(i)?.name())
    }

    fn property_count(&self, i: usize) -> Answer<usize> {
        Ok(self.only(i)?.property_count())
    }

    fn property(&self, i: usize, k: usize) -> Answer<Option<PropertyInfo<'_>>> {
        Ok(self.only(i)?.property(k))
    }

    fn method_count(&self, i: usize) -> Answer<usize> {
        Ok(self.only(i)?.method_count())
    }

    fn method(&self, i: usize, k: usize) -> Answer<Option<&[u8]>> {
        Ok(self.only(i)?.method(k))
    }

    fn get(
        &self,
        i: usize,
        name: &[u8],
        into: &mut Value,
    ) -> Answer<Option<Result<(), PropertyFault>>> {
        Ok(self.only(i)?.get(name, into))
    }

    fn get_all(&self, i: usize, into: &mut [Value; 16]) -> Answer<Result<usize, PropertyFault>> {
        Ok(self.only(i)?.get_all(into))
    }

    fn set_mut(&mut self, i: usize, name: &[u8], value: &Value) -> Answer<Result<(), SetRefusal>> {
        self.only(i)?;
        Ok(self.of.set_mut(name, value))
    }

    fn call<'call>(&self, i: usize, name: &'call [u8]) -> Answer<DispatchResult2<'call>> {
        Ok(self.only(i)?.call(name))
    }

    fn call_mut<'call>(&mut self, i: usize, name: &'call [u8]) -> Answer<DispatchResult2<'call>> {
        self.only(i)?;
        Ok(self.of.call_mut(name))
    }
}
