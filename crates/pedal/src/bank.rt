// Shows the effects of a bank: each with its number, its name, and its properties.
use banks::bank::Bank;
use effects::interface::PropertyInfo;
use effects::value::Value;
use std::str::from_utf8;

// A text of bytes, or a sign that it is none.
fn text(bytes: &[u8]) -> &str {
    from_utf8(bytes).unwrap_or("?")
}

// A property with its type, access and value.
fn show_property(rt: &HostRuntime, info: PropertyInfo<'_>, value: &Value) -> anyhow::Result<()> {
    let name = text(info.name);
    let signature = info.signature;
    let access = info.access;
    println!(rt; "    {name} {signature} {access} {value}")?;
    Ok(())
}

// The properties of an effect, or why they cannot be read.
fn show_properties<B: Bank>(rt: &HostRuntime, bank: &B, i: usize) -> anyhow::Result<()> {
    let mut values = [Value::Bool(false); 16];
    match bank.get_all(i, &mut values) {
        Ok(Ok(count)) => {
            for (k, value) in values.iter().take(count).enumerate() {
                if let Ok(Some(info)) = bank.property(i, k) {
                    show_property(rt, info, value)?;
                }
            }
        }
        Ok(Err(fault)) => {
            let number = fault.number;
            println!(rt; "    fault {number}: its values cannot be read")?;
        }
        Err(_) => {}
    }
    Ok(())
}

pub fn show_bank<B: Bank>(rt: &HostRuntime, bank: &B) -> anyhow::Result<()> {
    let count = bank.len();
    println!(rt; "the bank has {count} effects")?;
    for i in 0..count {
        if let Ok(name) = bank.name(i) {
            let name = text(name);
            println!(rt; "  {i} {name}")?;
        }
        show_properties(rt, bank, i)?;
    }
    Ok(())
}
