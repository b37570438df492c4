// The fields of a word as numbers: the operation's, the named fields from bit 0 up, and last the bits that
// the format does not name.
ghost use Rattle.std.specs.Prelude.{◌≡◌, leb, Some, None, if◌then◌else◌};
ghost use Rattle.pica.specs.Words.{format_number, eight_numbers, fields_by};

use instruction::Fields;

// A format's number, and eight numbers: its fields and zeros after them.
pub(crate) fn numbers_of(fields: Fields) -> (u32, [u32; 8])
    ensures { result ≡ (format_number fields, eight_numbers fields) }
{
    match fields {
        Fields::Format0(op, rest) => (0, [op, rest, 0, 0, 0, 0, 0, 0]),
        Fields::Format1(op, desc, src2, src1, idx1, dst) => {
            (1, [op, desc, src2, src1, idx1, dst, 0, 0])
        }
        Fields::Format1i(op, desc, src2, src1, idx2, dst) => {
            (2, [op, desc, src2, src1, idx2, dst, 0, 0])
        }
        Fields::Format1u(op, desc, rest, src1, idx1, dst) => {
            (3, [op, desc, src1, idx1, dst, rest, 0, 0])
        }
        Fields::Format1c(op, desc, src2, src1, idx1, cmpy, cmpx) => {
            (4, [op, desc, src2, src1, idx1, cmpy, cmpx, 0])
        }
        Fields::Format2(op, num, rest, dst, condop, refy, refx) => {
            (5, [op, num, dst, condop, refy, refx, rest, 0])
        }
        Fields::Format3(op, num, rest, dst, id) => (6, [op, num, dst, id, rest, 0, 0, 0]),
        Fields::Format4(op, rest, winding, primemit, vtxid) => {
            (7, [op, winding, primemit, vtxid, rest, 0, 0, 0])
        }
        Fields::Format5(op, desc, src3, src2, src1, idx2, dst) => {
            (8, [op, desc, src3, src2, src1, idx2, dst, 0])
        }
        Fields::Format5i(op, desc, src3, src2, src1, idx3, dst) => {
            (9, [op, desc, src3, src2, src1, idx3, dst, 0])
        }
    }
}

// The fields that a format has among eight numbers. There is no format over 9.
pub(crate) fn fields_of(format: u32, numbers: &[u32; 8]) -> Option<Fields>
    ensures { result ≡ (if leb format 9 then Some (fields_by format numbers.now) else None) }
{
    let [op, a, b, c, d, e, f, _] = *numbers;
    match format {
        0 => Some(Fields::Format0(op, a)),
        1 => Some(Fields::Format1(op, a, b, c, d, e)),
        2 => Some(Fields::Format1i(op, a, b, c, d, e)),
        3 => Some(Fields::Format1u(op, a, e, b, c, d)),
        4 => Some(Fields::Format1c(op, a, b, c, d, e, f)),
        5 => Some(Fields::Format2(op, a, f, b, c, d, e)),
        6 => Some(Fields::Format3(op, a, d, b, c)),
        7 => Some(Fields::Format4(op, d, a, b, c)),
        8 => Some(Fields::Format5(op, a, b, c, d, e, f)),
        9 => Some(Fields::Format5i(op, a, b, c, d, e, f)),
        _ => None,
    }
}
