// Instances of a bank whose properties were read.
ghost use Rattle.std.specs.Prelude.{◌≡◌, map, IfOk};
ghost use Rattle.std.specs.List.{slice_get};
ghost use Rattle.std.specs.Option.{option_map};
ghost use Rattle.banks.specs.Rows.{through};
ghost use Rattle.effects.specs.Calls.{values_of};
ghost use Rattle.effects.specs.Values.{seen};
ghost use Rattle.signals.specs.Readable.{announced, readable_one};

use crate::bodies::BodyError;
use banks::bank::Bank;
use effects::value::Value;

// An instance of a bank, by its number, with the values of its properties.
#[derive(Drop)]
pub(crate) struct Instance<'b, B: Bank> {
    bank: &'b B,
    number: usize,
    pub(crate) values: &'b [Value],
    ghost read: { map seen values.now ≡ values_of (announced (B.Bank.models bank.now) number).properties },
}

impl<'b, B: Bank> Instance<'b, B> {
    // Reads the values into the lent places, or says what hinders it.
    pub(crate) fn read(
        bank: &'b B,
        number: usize,
        into: &'b mut [Value; 16],
    ) -> Result<Instance<'b, B>, BodyError>
        ensures answer { through (λ _. tt) result ≡ readable_one number (slice_get (B.Bank.models bank.now) number) }
        ensures instance { IfOk result (λ r. (r.bank ≡ bank.entry) × (r.number ≡ number)) }
    {
        let count = bank
            .get_all(number, into)
            .map_err(|_| BodyError::NoSuchInstance(number))?
            .map_err(|fault| BodyError::PropertyFault(number, fault.number))?;
        Ok(Instance {
            bank,
            number,
            values: &into[..count],
        })
    }

    // Its name; empty if the bank does not have it.
    pub(crate) fn name(&self) -> &[u8]
        ensures { result.now ≡ (announced (B.Bank.models self.now.bank.now) self.now.number).name }
    {
        self.bank.name(self.number).unwrap_or_default()
    }

    // The name of a property.
    pub(crate) fn property_name(&self, k: usize) -> Option<&[u8]>
        ensures { option_map (λ x. x.now) result ≡ option_map (λ p. p.name) (slice_get (announced (B.Bank.models self.now.bank.now) self.now.number).properties k) }
    {
        Some(self.bank.property(self.number, k).ok()??.name)
    }
}
