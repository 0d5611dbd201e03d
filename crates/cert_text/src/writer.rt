ghost use Rattle.std.specs.Prelude.{◌≡◌, ◌++◌, ◌∷◌, [], OnOk, IfOk, codes, map, decimal};
ghost use Rattle.std.specs.Fmt.{signed_decimal};
ghost use Rattle.std.specs.List.{flat_map};
ghost use Rattle.line_text.specs.Written.{spaced, written};
ghost use Rattle.cert_text.specs.Texts.{Reads};
ghost use Rattle.cert_text.specs.Writing.{header_text, exception_field, edge_word, class_line, node_line, item_line, flow_fields, start_line, end_line, text_of, IsInTextRanges};

use crate::certs::{Cert, CertClass, CertException, CertFlow, CertItem, CertNode};
use bud_base::Text;
use bud_syntax::Edge;
use itoa::Buffer;
use line_text::{put_count, put_field, put_whole};
use std::alloc::{AllocError, Global};

/// Writes a certificate as a text, in time linear in the text.
pub fn write_cert(alloc: Global, cert: &Cert) -> Result<Text, AllocError>
    ensures text { IfOk result (λ text. text ≡ text_of cert.now) }
    // The text reads as the certificate.
    ensures reads { IsInTextRanges cert.now → IfOk result (λ text. Reads text cert.now) }
{
    write_lines(alloc, cert)
}

fn write_lines(alloc: Global, cert: &Cert) -> Result<Text, AllocError>
    ensures { IfOk result (λ text. text ≡ text_of cert.now) }
{
    let mut out = Vec::new(alloc);
    put_header(&mut out, cert.policy)?;
    put_classes(&mut out, cert.classes.as_slice())?;
    put_nodes(&mut out, cert.nodes.as_slice())?;
    put_items(&mut out, cert.items.as_slice())?;
    put_starts(&mut out, cert.starts.as_slice())?;
    put_ends(&mut out, cert.ends.as_slice())?;
    put_weight(&mut out, cert.weight)?;
    Ok(Text::from_vec(out))
}

fn put_header(out: &mut Vec<u8>, policy: u32) -> Result<(), AllocError>
    ensures { OnOk result (out.new.items ≡ out.old.items ++ header_text policy) }
{
    if policy == 2 {
        out.extend_from_slice(b"certificate 2\npolicy 2\n")
    } else {
        out.extend_from_slice(b"certificate 1\n")
    }
}

fn put_weight(out: &mut Vec<u8>, weight: i128) -> Result<(), AllocError>
    ensures { OnOk result (out.new.items ≡ out.old.items ++ written (codes "weight") (signed_decimal weight ∷ [])) }
{
    out.extend_from_slice(b"weight")?;
    let mut buffer = Buffer::new();
    put_field(out, buffer.format(weight).as_bytes())?;
    out.push(b'\n')?;
    Ok(())
}

fn edge_bytes(edge: Edge) -> &'static [u8]
    ensures { result.now ≡ edge_word edge }
{
    match edge {
        Edge::Rise => b"rise",
        Edge::Fall => b"fall",
    }
}

fn put_exception(out: &mut Vec<u8>, exception: CertException) -> Result<(), AllocError>
    ensures { OnOk result (out.new.items ≡ out.old.items ++ spaced (exception_field exception)) }
{
    put_count(out, exception.number)?;
    let Some(steps) = exception.steps else {
        return Ok(());
    };
    let mut buffer = Buffer::new();
    out.push(b':')?;
    out.extend_from_slice(buffer.format(steps).as_bytes())
}

fn put_exceptions(out: &mut Vec<u8>, exceptions: &[CertException]) -> Result<(), AllocError>
    ensures { OnOk result (out.new.items ≡ out.old.items ++ flat_map spaced (map exception_field exceptions.now)) }
{
    for exception in exceptions {
        put_exception(out, *exception)?;
    }
    Ok(())
}

fn put_class(out: &mut Vec<u8>, class: &CertClass) -> Result<(), AllocError>
    ensures { OnOk result (out.new.items ≡ out.old.items ++ class_line class.now) }
{
    out.extend_from_slice(b"class")?;
    put_count(out, class.number.0)?;
    put_field(out, class.clock.as_slice())?;
    put_field(out, edge_bytes(class.edge))?;
    put_exceptions(out, class.exceptions.as_slice())?;
    out.push(b'\n')?;
    Ok(())
}

fn put_classes(out: &mut Vec<u8>, classes: &[CertClass]) -> Result<(), AllocError>
    ensures { OnOk result (out.new.items ≡ out.old.items ++ flat_map class_line classes.now) }
{
    for class in classes {
        put_class(out, class)?;
    }
    Ok(())
}

fn put_node(out: &mut Vec<u8>, node: &CertNode) -> Result<(), AllocError>
    ensures { OnOk result (out.new.items ≡ out.old.items ++ node_line node.now) }
{
    out.extend_from_slice(b"node")?;
    put_field(out, node.name.as_slice())?;
    put_count(out, node.class.0)?;
    put_whole(out, node.arrival)?;
    out.push(b'\n')?;
    Ok(())
}

fn put_nodes(out: &mut Vec<u8>, nodes: &[CertNode]) -> Result<(), AllocError>
    ensures { OnOk result (out.new.items ≡ out.old.items ++ flat_map node_line nodes.now) }
{
    for node in nodes {
        put_node(out, node)?;
    }
    Ok(())
}

fn put_item(out: &mut Vec<u8>, item: &CertItem) -> Result<(), AllocError>
    ensures { OnOk result (out.new.items ≡ out.old.items ++ item_line item.now) }
{
    out.extend_from_slice(b"item")?;
    put_field(out, item.from.as_slice())?;
    put_field(out, item.to.as_slice())?;
    put_count(out, item.class.0)?;
    put_whole(out, item.budget)?;
    put_whole(out, item.flow)?;
    out.push(b'\n')?;
    Ok(())
}

fn put_items(out: &mut Vec<u8>, items: &[CertItem]) -> Result<(), AllocError>
    ensures { OnOk result (out.new.items ≡ out.old.items ++ flat_map item_line items.now) }
{
    for item in items {
        put_item(out, item)?;
    }
    Ok(())
}

fn put_flow(out: &mut Vec<u8>, flow: &CertFlow) -> Result<(), AllocError>
    ensures { OnOk result (out.new.items ≡ out.old.items ++ (flat_map spaced (flow_fields flow.now) ++ 10 ∷ [])) }
{
    put_field(out, flow.name.as_slice())?;
    put_count(out, flow.class.0)?;
    put_whole(out, flow.flow)?;
    out.push(b'\n')?;
    Ok(())
}

fn put_starts(out: &mut Vec<u8>, starts: &[CertFlow]) -> Result<(), AllocError>
    ensures { OnOk result (out.new.items ≡ out.old.items ++ flat_map start_line starts.now) }
{
    for start in starts {
        out.extend_from_slice(b"start")?;
        put_flow(out, start)?;
    }
    Ok(())
}

fn put_ends(out: &mut Vec<u8>, ends: &[CertFlow]) -> Result<(), AllocError>
    ensures { OnOk result (out.new.items ≡ out.old.items ++ flat_map end_line ends.now) }
{
    for end in ends {
        out.extend_from_slice(b"end")?;
        put_flow(out, end)?;
    }
    Ok(())
}
