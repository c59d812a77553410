// All statements of a catalogue, in their order (R81).
ghost use Rattle.std.specs.Prelude.{◌≡◌, map, ◌+◌, ◌*◌, ◌<◌, ◌≤◌, eqb};
ghost use Rattle.terms.specs.Choice.{pick};
ghost use Rattle.rules.specs.Catalogue.{types, fields, key_kind};
ghost use Rattle.statements.specs.Lines.{text_of};
ghost use Rattle.statements.specs.Dbd.{spelled, own_fields, key_field, field_statement, statements};
ghost use Rattle.dbd_given.specs.Numbered.{numbered};
ghost use Rattle.dbd_write.specs.Wrote.{Wrote, Fit, Lower};

use crate::lines::{put_dbd, put_field, put_segm};
use catalogue::entries::key_kind;
use catalogue::entry_bytes::{fields, types};
use catalogue::fields::field_type;
use dbd_given::keys::key_field;
use terms::{FieldNumber, TypeCode};

// R81: the kind that field f shows, where `key` is the field that gets SEQ; 0, 1 or 2, as the key's byte has it (R4).
fn kind_shown(cat: &[u8], t: TypeCode, key: Option<FieldNumber>, f: FieldNumber) -> u8
    requires key { key ≡ numbered (key_field cat.now t.0) }
    requires some { 0 < f.0 }
    ensures { result ≡ pick (eqb f.0 (key_field cat.now t.0)) (key_kind cat.now t) 0 }
{
    let is_key = key.is_some_and(|k| k.0 == f.0);
    if is_key { key_kind(cat, t) } else { 0 }
}

// The fields of one type, by number.
fn put_fields(out: &mut [u8], at: usize, cat: &[u8], names: &[u8], t: TypeCode) -> usize
    requires { Fit cat.now names.now × (at < 1000000) }
    ensures { Wrote at (text_of (map spelled (map (field_statement cat.now names.now t.0) (own_fields cat.now t.0))))
        out.old result out.new × (result ≤ at + 4096) }
{
    let key = key_field(cat, t);
    let mut next = at;
    for number in 1..=fields(cat) {
        let f = FieldNumber(number);
        if field_type(cat, f).0 == t.0 {
            let kind = kind_shown(cat, t, key, f);
            next = put_field(out, next, cat, names, f, kind);
        }
    }
    next
}

pub(crate) fn put_statements(out: &mut [u8], cat: &[u8], names: &[u8]) -> usize
    requires { Fit cat.now names.now × Lower cat.now }
    ensures { Wrote 0 (text_of (map spelled (statements cat.now names.now)))
        out.old result out.new × (result < 200000) }
{
    let mut next = put_dbd(out, names);
    for number in 1..=types(cat) {
        let t = TypeCode(number);
        next = put_segm(out, next, cat, names, t);
        next = put_fields(out, next, cat, names, t);
    }
    next
}
