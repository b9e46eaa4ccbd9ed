// Names and declarations inside an instance: the instance's name and a dot stand before each.

ghost use Rattle.std.specs.Prelude.{◌≡◌, ◌∷◌, ◌++◌, IfOk, map};
ghost use Rattle.ps_derived.specs.Dotted.{inside, declaration_inside};

use ps_base::{Bytes, Memory};
use ps_derived::copy_of;
use ps_parser::{Declaration, Name, Names};
use std::alloc::Global;

/// A name, a dot, and another name, as one text.
pub fn dotted(alloc: Global, first: &Bytes, last: &Bytes) -> Result<Bytes, Memory>
    ensures { IfOk result (λ t. t ≡ first.now ++ 46 ∷ last.now) }
{
    let mut text = Bytes::from_slice(alloc, first.as_slice())?;
    text.push(b'.')?;
    text.extend_from_slice(last.as_slice())?;
    // A text that has grown has room for more. What is kept has just its bytes.
    Bytes::from_slice(alloc, text.as_slice())
}

/// A name inside an instance, at its own place.
pub fn inside(alloc: Global, instance: &Name, name: &Name) -> Result<Name, Memory>
    ensures { IfOk result (λ n. n ≡ inside instance.now name.now) }
{
    Ok(Name {
        text: dotted(alloc, &instance.text, &name.text)?,
        place: name.place,
    })
}

// Names inside an instance.
fn names_inside(alloc: Global, instance: &Name, names: &[Name]) -> Result<Names, Memory>
    ensures { IfOk result (λ ns. ns ≡ map (inside instance.now) names.now) }
{
    let mut copies = Names::new(alloc);
    for name in names {
        let one = inside(alloc, instance, name)?;
        copies.push(one)?;
    }
    Ok(copies)
}

/// A declaration inside an instance. Its type keeps its name.
pub fn declaration_inside(
    alloc: Global,
    instance: &Name,
    declaration: &Declaration,
) -> Result<Declaration, Memory>
    ensures { IfOk result (λ d. d ≡ declaration_inside instance.now declaration.now) }
{
    Ok(Declaration {
        names: names_inside(alloc, instance, declaration.names.as_slice())?,
        ty: copy_of(alloc, &declaration.ty)?,
    })
}
