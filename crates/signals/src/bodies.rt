// The bodies of signals, written from the first of the lent bytes on.
// The place of each write goes in and its end comes out, so a write that does not fit leaves the caller's place as it was.
// Arrays are opened and closed around their elements in place: a function over a closure would need a contract on the
// bytes that the closure leaves, and be no shorter.
// A bank and numbers of instances come side by side from the caller of a public call; inside, an `Instance` holds both.
ghost use Rattle.std.specs.Prelude.{◌≡◌, [], ◌∷◌, map, IfErr};
ghost use Rattle.names.specs.Standard.{standard_name};
ghost use Rattle.effects.specs.Values.{seen};
ghost use Rattle.outbox.specs.Marshal.{entry, many, put_string};
ghost use Rattle.outbox.specs.Pours.{Poured};
ghost use Rattle.signals.specs.Bodies.{added_part, put_announced, put_properties, put_property, put_value, removed_part, standard_one};
ghost use Rattle.signals.specs.declared.bodies.BodyError.TheVariants as E;
ghost use Rattle.signals.specs.Readable.{Bodied, announced, readable};

use crate::instance::Instance;
use banks::bank::Bank;
use effects::value::Value;
use names::standard::Standard;
use outbox::writing::{
    Full, MAX_LEN, close_array, open_array, open_variant, put_bool, put_i32, put_pad, put_path,
    put_string, put_u32,
};
use signature::codes::Code;

// Why a body is not written.
#[derive(Clone, Copy, Debug, PartialEq, Eq)]
pub enum BodyError {
    // The bank has no interface of this number.
    NoSuchInstance(usize),
    // The properties of this instance cannot be read, with its fault number.
    PropertyFault(usize, u32),
    // There is no room for it.
    Full,
}

impl From<Full> for BodyError {
    ghost from_gives = { λ _ e. e ≡ E.Full };

    fn from(_full: Full) -> BodyError {
        BodyError::Full
    }
}

// A value in a variant.
fn put_value(bytes: &mut [u8], from: usize, value: &Value) -> Result<usize, Full>
    ensures { Poured bytes.old from bytes.new result (put_value (seen value.now)) }
{
    let at = open_variant(bytes, from, value.value_signature().code())?;
    match value {
        Value::Bool(b) => put_bool(bytes, at, *b),
        Value::I32(n) => put_i32(bytes, at, *n),
        Value::U32(n) => put_u32(bytes, at, *n),
        Value::Str(text) => put_string(bytes, at, text.as_bytes()),
    }
}

// A property: its name and its value.
fn put_property(bytes: &mut [u8], from: usize, name: &[u8], value: &Value) -> Result<usize, Full>
    ensures { Poured bytes.old from bytes.new result (entry (put_string name.now) (put_value (seen value.now))) }
{
    let at = put_pad(bytes, from, Code::DictEntry)?;
    let at = put_string(bytes, at, name)?;
    put_value(bytes, at, value)
}

// The properties of an instance.
fn put_properties<B: Bank>(
    bytes: &mut [u8],
    from: usize,
    instance: &Instance<'_, B>,
) -> Result<usize, Full>
    ensures { Poured bytes.old from bytes.new result (many put_property (announced (B.Bank.models instance.now.bank.now) instance.now.number).properties) }
{
    if from > bytes.len().min(MAX_LEN) {
        return Err(Full);
    }
    let mut at = from;
    for (k, value) in instance.values.iter().enumerate() {
        let name = instance.property_name(k).unwrap();
        at = put_property(bytes, at, name, value)?;
    }
    Ok(at)
}

// The dictionary of an instance's properties.
fn put_dictionary<B: Bank>(
    bytes: &mut [u8],
    from: usize,
    instance: &Instance<'_, B>,
) -> Result<usize, Full>
    ensures { Poured bytes.old from bytes.new result (put_properties (announced (B.Bank.models instance.now.bank.now) instance.now.number).properties) }
{
    let at = open_array(bytes, from, Code::DictEntry)?;
    let at = put_properties(bytes, at, instance)?;
    close_array(bytes, from, Code::DictEntry, at)
}

// An instance's name and its properties.
fn put_instance<B: Bank>(
    bytes: &mut [u8],
    from: usize,
    instance: &Instance<'_, B>,
) -> Result<usize, Full>
    ensures { Poured bytes.old from bytes.new result (put_announced (announced (B.Bank.models instance.now.bank.now) instance.now.number)) }
{
    let at = put_pad(bytes, from, Code::DictEntry)?;
    let at = put_string(bytes, at, instance.name())?;
    put_dictionary(bytes, at, instance)
}

// Instances one after another.
fn put_instances<B: Bank>(
    bytes: &mut [u8],
    from: usize,
    bank: &B,
    instances: &[usize],
) -> Result<usize, BodyError>
    requires { readable (B.Bank.models bank.now) instances.now ≡ Ok tt }
    ensures wrote { Poured bytes.old from bytes.new result (many put_announced (map (announced (B.Bank.models bank.now)) instances.now)) }
    ensures full { IfErr result (λ e. e ≡ BodyError.Full) }
{
    if from > bytes.len().min(MAX_LEN) {
        return Err(BodyError::Full);
    }
    let mut values = [Value::U32(0); 16];
    let mut at = from;
    for i in instances {
        let instance = Instance::read(bank, *i, &mut values)?;
        at = put_instance(bytes, at, &instance)?;
    }
    Ok(at)
}

// The body of InterfacesAdded with instances that can be read.
fn put_readable<B: Bank>(
    bytes: &mut [u8],
    path: &[u8],
    bank: &B,
    instances: &[usize],
) -> Result<usize, BodyError>
    requires { readable (B.Bank.models bank.now) instances.now ≡ Ok tt }
    ensures wrote { Poured bytes.old 0 bytes.new result (added_part path.now (map (announced (B.Bank.models bank.now)) instances.now)) }
    ensures full { IfErr result (λ e. e ≡ BodyError.Full) }
{
    let start = put_path(bytes, 0, path)?;
    let at = open_array(bytes, start, Code::DictEntry)?;
    let at = put_instances(bytes, at, bank, instances)?;
    Ok(close_array(bytes, start, Code::DictEntry, at)?)
}

// Whether all these instances can be read; if not, the first that hinders.
pub fn check_readable<B: Bank>(bank: &B, instances: &[usize]) -> Result<(), BodyError>
    ensures { result ≡ readable (B.Bank.models bank.now) instances.now }
{
    let mut values = [Value::U32(0); 16];
    for i in instances {
        Instance::read(bank, *i, &mut values)?;
    }
    Ok(())
}

// The body of InterfacesAdded: an object's path, and its interfaces of these numbers in this order.
pub fn put_added<B: Bank>(
    bytes: &mut [u8],
    path: &[u8],
    bank: &B,
    instances: &[usize],
) -> Result<usize, BodyError>
    ensures { Bodied bytes.old bytes.new result (readable (B.Bank.models bank.now) instances.now) (added_part path.now (map (announced (B.Bank.models bank.now)) instances.now)) }
{
    check_readable(bank, instances)?;
    put_readable(bytes, path, bank, instances)
}

// A standard interface's name, and a dictionary without entries.
fn put_standard(bytes: &mut [u8], from: usize, standard: Standard) -> Result<usize, Full>
    ensures { Poured bytes.old from bytes.new result (put_announced (standard_one (standard_name standard))) }
{
    let at = put_pad(bytes, from, Code::DictEntry)?;
    let start = put_string(bytes, at, standard.name())?;
    let at = open_array(bytes, start, Code::DictEntry)?;
    close_array(bytes, start, Code::DictEntry, at)
}

// The body of InterfacesAdded for a standard interface, which has no properties.
pub fn put_added_standard(bytes: &mut [u8], path: &[u8], standard: Standard) -> Result<usize, Full>
    ensures { Poured bytes.old 0 bytes.new result (added_part path.now (standard_one (standard_name standard) ∷ [])) }
{
    let start = put_path(bytes, 0, path)?;
    let at = open_array(bytes, start, Code::DictEntry)?;
    let at = put_standard(bytes, at, standard)?;
    close_array(bytes, start, Code::DictEntry, at)
}

// The body of InterfacesRemoved: an object's path, and the name of the interface that it had.
pub fn put_removed(bytes: &mut [u8], path: &[u8], name: &[u8]) -> Result<usize, Full>
    ensures { Poured bytes.old 0 bytes.new result (removed_part path.now (name.now ∷ [])) }
{
    let start = put_path(bytes, 0, path)?;
    let at = open_array(bytes, start, Code::String)?;
    let at = put_string(bytes, at, name)?;
    close_array(bytes, start, Code::String, at)
}
