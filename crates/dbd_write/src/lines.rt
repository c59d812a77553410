// The lines of the writer (R81).
ghost use Rattle.std.specs.Prelude.{◌≡◌, [], ◌∷◌, ◌++◌, ◌+◌, ◌*◌, ◌<◌, ◌≤◌, length};
ghost use Rattle.terms.specs.Names.{field};
ghost use Rattle.rules.specs.Catalogue.{types, fields, parent_of, field_length, field_start};
ghost use Rattle.rules.specs.Listing.{line_end};
ghost use Rattle.statements.specs.Words.{trimmed};
ghost use Rattle.statements.specs.Statement.{dbd, field as field_line};
ghost use Rattle.statements.specs.Dbd.{spelled, name_at, field_name, parent_word, segm_statement};
ghost use Rattle.dbd_write.specs.Wrote.{Wrote, Fit, name_part};

use crate::text::{put_decimal, put_name, put_text};
use blocks::wide;
use catalogue::entries::{data_length, parent};
use catalogue::entry_bytes::types;
use catalogue::fields::{field_length, field_start};
use terms::{FieldNumber, TypeCode};

pub(crate) fn put_dbd(out: &mut [u8], names: &[u8]) -> usize
    requires { 16 ≤ length names.now }
    ensures { Wrote 0 (spelled (dbd (trimmed (name_at names.now 0))) ++ (line_end ∷ [])) out.old result out.new × (result ≤ 64) }
{
    let a = put_text(out, 0, b"DBD NAME=");
    let b = put_name(out, a, &names[8..16]);
    put_text(out, b, b"\n")
}

// The parent's name, or 0.
fn put_parent(out: &mut [u8], at: usize, cat: &[u8], names: &[u8], t: TypeCode) -> usize
    requires { Fit cat.now names.now × (at + 8 < 4294967296) × ((parent_of cat.now t).0 ≤ types cat.now) }
    ensures { Wrote at (parent_word cat.now names.now t.0) out.old result out.new × (result ≤ at + 8) }
{
    let above = parent(cat, t);
    if above.0 == 0 {
        return put_text(out, at, b"0");
    }
    let from = 8 + 8 * wide(above.0);
    let to = from + 8;
    put_name(out, at, &names[from..to])
}

pub(crate) fn put_segm(out: &mut [u8], at: usize, cat: &[u8], names: &[u8], t: TypeCode) -> usize
    requires { Fit cat.now names.now × (at + 64 < 4294967296) × (t.0 ≤ types cat.now) × ((parent_of cat.now t).0 ≤ types cat.now) }
    ensures { Wrote at (spelled (segm_statement cat.now names.now t.0) ++ (line_end ∷ []))
        out.old result out.new × (result ≤ at + 64) }
{
    let from = 8 + 8 * wide(t.0);
    let to = from + 8;
    let a = put_text(out, at, b"SEGM NAME=");
    let b = put_name(out, a, &names[from..to]);
    let c = put_text(out, b, b",PARENT=");
    let d = put_parent(out, c, cat, names, t);
    let e = put_text(out, d, b",BYTES=");
    let f = put_decimal(out, e, data_length(cat, t));
    put_text(out, f, b"\n")
}

// A field's name, with SEQ for a kind that is not 0; 1 is U and 2 is M, as the key's byte has it (R4).
fn put_named(out: &mut [u8], at: usize, name: &[u8], kind: u8) -> usize
    requires { (at + 24 < 4294967296) × (length name.now ≡ 8) }
    ensures { Wrote at (name_part (trimmed name.now) kind) out.old result out.new × (result ≤ at + 16) }
{
    if kind == 0 {
        return put_name(out, at, name);
    }
    let a = put_text(out, at, b"(");
    let b = put_name(out, a, name);
    if kind == 1 {
        return put_text(out, b, b",SEQ,U)");
    }
    put_text(out, b, b",SEQ,M)")
}

pub(crate) fn put_field(
    out: &mut [u8],
    at: usize,
    cat: &[u8],
    names: &[u8],
    f: FieldNumber,
    kind: u8,
) -> usize
    requires { Fit cat.now names.now × (at + 64 < 4294967296) × (f.0 ≤ fields cat.now) }
    ensures { Wrote at (spelled (field_line (trimmed (field_name cat.now names.now f.0)) kind
        (field_length cat.now f) (field_start cat.now f)) ++ (line_end ∷ [])) out.old result out.new × (result ≤ at + 64) }
{
    let from = 8 + 8 * wide(types(cat)) + 8 * wide(f.0);
    let to = from + 8;
    let a = put_text(out, at, b"FIELD NAME=");
    let b = put_named(out, a, &names[from..to], kind);
    let c = put_text(out, b, b",BYTES=");
    let d = put_decimal(out, c, field_length(cat, f));
    let e = put_text(out, d, b",START=");
    let g = put_decimal(out, e, field_start(cat, f));
    put_text(out, g, b",TYPE=C\n")
}
