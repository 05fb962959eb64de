// The parts of a bundle that opened, each in an array of its own. A function each: type, length and contract all differ.
ghost use Rattle.std.specs.Prelude.{◌≡◌, take, Some};
ghost use Rattle.bundles.specs.Opening.{bundle_in, opened};
ghost use Rattle.bundles.specs.Given.{lent_to};

use bundles::Header;
use numbers::limits::{MESSAGE_CELLS, MOST_CERTIFICATES, MOST_PATTERN_ROWS, VARIABLES};

pub fn pattern(bytes: &[u8], header: Header) -> [u64; MOST_PATTERN_ROWS]
    requires { opened bytes.now ≡ Some header }
    ensures { take header.pattern_rows result ≡ (bundle_in bytes.now).pattern }
{
    let mut rows = [0; MOST_PATTERN_ROWS];
    bundles::pattern_rows(bytes, header, &mut rows);
    rows
}

pub fn kinds(bytes: &[u8], header: Header) -> [u8; VARIABLES]
    requires { opened bytes.now ≡ Some header }
    ensures { result ≡ (lent_to (bundle_in bytes.now)).kinds }
{
    let mut kinds = [0; VARIABLES];
    bundles::kinds(bytes, header, &mut kinds);
    kinds
}

pub fn objects(bytes: &[u8], header: Header) -> [u16; VARIABLES]
    requires { opened bytes.now ≡ Some header }
    ensures { result ≡ (lent_to (bundle_in bytes.now)).objects }
{
    let mut cells = [0; VARIABLES];
    bundles::object_cells(bytes, header, &mut cells);
    cells
}

// The named cells, then scratch, which starts unset.
pub fn messages(bytes: &[u8], header: Header) -> [u16; MESSAGE_CELLS]
    requires { opened bytes.now ≡ Some header }
    ensures { result ≡ (lent_to (bundle_in bytes.now)).messages }
{
    let mut cells = [0; MESSAGE_CELLS];
    bundles::message_cells(bytes, header, &mut cells);
    cells
}

pub fn certificates(bytes: &[u8], header: Header) -> [u64; MOST_CERTIFICATES]
    requires { opened bytes.now ≡ Some header }
    ensures { take header.certificates result ≡ (bundle_in bytes.now).certificates }
{
    let mut pairs = [0; MOST_CERTIFICATES];
    bundles::certificates(bytes, header, &mut pairs);
    pairs
}
