ghost use Rattle.std.specs.Prelude.{◌≡◌, ℕ, ◌^◌, ◌<◌, List, map, length, All, IfOk, IfSome, slice_get};
ghost use Rattle.ir_type_numbers.specs.Numbering.{number_at, twice, far_leads, is_no_name, led_to, stands_for, module_type, module_types, module_fields, FitsModule};

use hw_base::OutOfMemory;
use ir_core::{IrType, TypeIdList, TypeList};
use ir_grammar::SpelledType;
use std::alloc::Global;

/// How often the steps are doubled: 2^32 of them are more than there are types.
const DOUBLINGS: u32 = 32;

/// The types of a module, by numbers.
#[derive(Drop)]
pub struct NumberedTypes {
    /// One number a spelled type: that of the type that it stands for.
    pub numbers: Vec<u32>,
    /// One entry a spelled type. That of a name is an array of one item, the type that it stands for, and no number leads
    /// to it.
    pub types: TypeList,
    /// The types of the fields of structs, each by the number of the type that it stands for.
    pub fields: TypeIdList,
}

/// Numbers the spelled types. `leads` has one number a type: for a name that of the type in its definition, for any other
/// type its own. A name stands for the type that it leads to, by however many names; one that leads to no type stands for
/// itself. A name's entry is an array of one item, what it stands for, so that it costs no more to lay out than a name,
/// however long the type. The time is in proportion to the types and fields.
pub fn number_types(
    alloc: Global,
    types: &[SpelledType],
    fields: &[usize],
    leads: &[usize],
) -> Result<NumberedTypes, OutOfMemory>
    requires few { length types.now < 2 ^ 32 }
    requires fit { All FitsModule types.now }
    ensures numbers { IfOk result (λ numbered. numbered.numbers.items ≡ stands_for types.now leads.now) }
    ensures types { IfOk result (λ numbered. numbered.types ≡ module_types types.now (stands_for types.now leads.now)) }
    ensures fields { IfOk result (λ numbered. numbered.fields ≡ module_fields fields.now (stands_for types.now leads.now)) }
{
    let numbers = stands_for(alloc, types, leads)?;
    let types = module_types(alloc, types, &numbers)?;
    let fields = module_fields(alloc, fields, &numbers)?;
    Ok(NumberedTypes {
        numbers,
        types: TypeList::from_vec(types),
        fields: TypeIdList::from_vec(fields),
    })
}

/// The number at a place in a list of leads, 0 past its end.
fn lead_at(leads: &[usize], place: usize) -> usize
    ensures { result ≡ number_at leads.now place }
{
    match leads.get(place) {
        Some(lead) => *lead,
        None => 0,
    }
}

/// The number at a place in a list, 0 past its end.
fn number_at(numbers: &[u32], place: usize) -> u32
    ensures { result ≡ number_at numbers.now place }
{
    match numbers.get(place) {
        Some(number) => *number,
        None => 0,
    }
}

/// Where two steps lead, by where one leads.
fn twice(alloc: Global, leads: &[usize]) -> Result<Vec<usize>, OutOfMemory>
    ensures { IfOk result (λ far. far.items ≡ twice leads.now) }
{
    Ok(
        leads
            .iter()
            .map(|lead| lead_at(leads, *lead))
            .collect(alloc)?,
    )
}

/// Where 2^32 steps lead.
fn far_leads(alloc: Global, leads: &[usize]) -> Result<Vec<usize>, OutOfMemory>
    ensures { IfOk result (λ far. far.items ≡ far_leads leads.now) }
{
    let mut far = Vec::from_slice(alloc, leads)?;
    for _ in 0..DOUBLINGS {
        far = twice(alloc, &far)?;
    }
    Ok(far)
}

/// Whether there is a type, and it is no name.
fn is_no_name(ty: Option<SpelledType>) -> bool
    ensures { result ≡ is_no_name ty }
{
    match ty {
        None | Some(SpelledType::Named(_)) => false,
        Some(_) => true,
    }
}

/// The number that a type leads to, by where all lead, if a type stands there that is no name, and else the type's own.
fn led_to(types: &[SpelledType], far: &[usize], own: u32) -> u32
    requires { length types.now < 2 ^ 32 }
    ensures { result ≡ led_to types.now own (number_at far.now own) }
{
    let end = lead_at(far, own as usize);
    if is_no_name(types.get(end).copied()) {
        end as u32
    } else {
        own
    }
}

/// The number of the type that each spelled type stands for.
fn stands_for(
    alloc: Global,
    types: &[SpelledType],
    leads: &[usize],
) -> Result<Vec<u32>, OutOfMemory>
    requires { length types.now < 2 ^ 32 }
    ensures { IfOk result (λ numbers. numbers.items ≡ stands_for types.now leads.now) }
{
    let far = far_leads(alloc, leads)?;
    let mut numbers = Vec::new(alloc);
    for own in 0..types.len() as u32 {
        numbers.push(led_to(types, &far, own))?;
    }
    Ok(numbers)
}

/// The module's type for the spelled type with a number.
fn module_type(numbers: &[u32], own: u32, ty: Option<SpelledType>) -> IrType
    requires { IfSome ty FitsModule }
    ensures { result ≡ module_type numbers.now own ty }
{
    match ty {
        Some(SpelledType::Named(_)) => IrType::Array {
            count: 1,
            item: number_at(numbers, own as usize),
        },
        Some(SpelledType::Void) => IrType::Void,
        Some(SpelledType::Ptr) => IrType::Ptr,
        Some(SpelledType::Int(width)) => IrType::Int(width as u32),
        None | Some(SpelledType::Opaque) | Some(SpelledType::Metadata) => IrType::Opaque,
        Some(SpelledType::Array { count, item }) => IrType::Array {
            count: count as u64,
            item: number_at(numbers, item),
        },
        Some(
            SpelledType::Struct {
                first,
                count,
                packed,
            },
        ) => IrType::Struct {
            first: first as u32,
            count: count as u32,
            packed,
        },
    }
}

/// The module's type for the spelled type with a number, by what the spelled types stand for.
fn entry(types: &[SpelledType], numbers: &[u32], own: u32) -> IrType
    requires { All FitsModule types.now }
    ensures { result ≡ module_type numbers.now own (slice_get types.now own) }
{
    module_type(numbers, own, types.get(own as usize).copied())
}

/// The module's types, by what the spelled types stand for.
fn module_types(
    alloc: Global,
    types: &[SpelledType],
    numbers: &[u32],
) -> Result<Vec<IrType>, OutOfMemory>
    requires few { length types.now < 2 ^ 32 }
    requires fit { All FitsModule types.now }
    ensures { IfOk result (λ entries. entries.items ≡ module_types types.now numbers.now) }
{
    let mut entries = Vec::new(alloc);
    for own in 0..types.len() as u32 {
        entries.push(entry(types, numbers, own))?;
    }
    Ok(entries)
}

/// The module's fields, by what the spelled types stand for.
fn module_fields(alloc: Global, fields: &[usize], numbers: &[u32]) -> Result<Vec<u32>, OutOfMemory>
    ensures { IfOk result (λ kept. kept.items ≡ module_fields fields.now numbers.now) }
{
    Ok(
        fields
            .iter()
            .map(|field| number_at(numbers, *field))
            .collect(alloc)?,
    )
}
