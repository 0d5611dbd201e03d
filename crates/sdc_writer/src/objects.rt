ghost use Rattle.std.specs.Prelude.{◌≡◌, ◌++◌, ◌∷◌, codes, OnOk};
ghost use Rattle.std.specs.List.{flat_map};
ghost use Rattle.std.specs.Option.{option_map};
ghost use Rattle.line_text.specs.Written.{spaced};
ghost use Rattle.sdc_writer.specs.Texts.{bracketed, getter, name_as, names_as, found_by, object_word};
ghost use Rattle.sdc_writer.specs.Listing.{listed, name_behind, kinds_of, are_mixed};
ghost use Rattle.sdc_writer.specs.Printable.{has_some};

use bud_syntax::Object;
use line_text::put_field;
use std::alloc::AllocError;

/// What objects are that are found by their names.
#[derive(Clone, Copy)]
pub enum ObjectKind {
    Ports,
    Pins,
    Clocks,
}

fn getter(kind: ObjectKind) -> &'static [u8]
    ensures { result.now ≡ getter kind }
{
    match kind {
        ObjectKind::Ports => b"get_ports",
        ObjectKind::Pins => b"get_pins",
        ObjectKind::Clocks => b"get_clocks",
    }
}

/// The name of an object, where it is one of this kind.
fn name_as(kind: ObjectKind, object: &Object) -> Option<&[u8]>
    ensures { listed (option_map (λ name. name.now) result) ≡ name_as kind object.now }
{
    match (kind, object) {
        (ObjectKind::Ports, Object::Ports(name)) => Some(name.as_slice()),
        (ObjectKind::Pins, Object::Pins(name)) => Some(name.as_slice()),
        (ObjectKind::Clocks, Object::Clocks(name)) => Some(name.as_slice()),
        _ => None,
    }
}

/// Adds a name of a list; before the first the list is begun.
fn put_name(out: &mut Vec<u8>, kind: ObjectKind, begun: bool, name: &[u8]) -> Result<(), AllocError>
    ensures { OnOk result (out.new.items ≡ out.old.items ++ name_behind kind begun name.now) }
{
    if begun {
        return put_field(out, name);
    }
    out.extend_from_slice(b" [")?;
    out.extend_from_slice(getter(kind))?;
    out.extend_from_slice(b" {")?;
    out.extend_from_slice(name)
}

/// Adds the command that finds those of the objects that are of a kind, where there are any.
fn put_found(out: &mut Vec<u8>, kind: ObjectKind, objects: &[Object]) -> Result<(), AllocError>
    ensures { OnOk result (out.new.items ≡ out.old.items ++ flat_map spaced (found_by kind (names_as kind objects.now))) }
{
    let mut begun = false;
    for object in objects {
        if let Some(name) = name_as(kind, object) {
            put_name(out, kind, begun, name)?;
            begun = true;
        }
    }
    if begun {
        out.extend_from_slice(b"}]")?;
    }
    Ok(())
}

fn has_kind(kind: ObjectKind, objects: &[Object]) -> bool
    ensures { result ≡ has_some (names_as kind objects.now) }
{
    for object in objects {
        if name_as(kind, object).is_some() {
            return true;
        }
    }
    false
}

/// Whether objects are of several kinds.
fn are_mixed(objects: &[Object]) -> bool
    ensures { result ≡ are_mixed objects.now }
{
    let ports = has_kind(ObjectKind::Ports, objects);
    let pins = has_kind(ObjectKind::Pins, objects);
    let clocks = has_kind(ObjectKind::Clocks, objects);
    (ports && (pins || clocks)) || (pins && clocks)
}

fn put_kinds(out: &mut Vec<u8>, objects: &[Object]) -> Result<(), AllocError>
    ensures { OnOk result (out.new.items ≡ out.old.items ++ flat_map spaced (kinds_of objects.now)) }
{
    put_found(out, ObjectKind::Ports, objects)?;
    put_found(out, ObjectKind::Pins, objects)?;
    put_found(out, ObjectKind::Clocks, objects)
}

fn put_list(out: &mut Vec<u8>, objects: &[Object]) -> Result<(), AllocError>
    ensures { OnOk result (out.new.items ≡ out.old.items ++ spaced (bracketed (codes "list" ∷ kinds_of objects.now))) }
{
    out.extend_from_slice(b" [list")?;
    put_kinds(out, objects)?;
    out.push(b']')?;
    Ok(())
}

/// Adds objects as one word behind a space, or nothing where there are none.
pub fn put_objects(out: &mut Vec<u8>, objects: &[Object]) -> Result<(), AllocError>
    ensures { OnOk result (out.new.items ≡ out.old.items ++ flat_map spaced (object_word objects.now)) }
{
    if are_mixed(objects) {
        put_list(out, objects)
    } else {
        put_kinds(out, objects)
    }
}
