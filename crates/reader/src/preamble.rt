ghost use Rattle.std.specs.Prelude.{◌≡◌, true};
ghost use Rattle.sheets.specs.Holding.{holders_within};
ghost use Rattle.reader.specs.Readers.{Bounded};

use sheets::holders::Holders;
use sheets::parts::Header;

/// What a sheet has beside its tables: the header, and who holds which channel.
#[derive(Drop)]
pub(crate) struct Preamble {
    pub header: Header,
    pub holders: Holders,
    ghost bounded: { Bounded header },
    ghost holders_exist: { holders_within header.channels header.parties holders ≡ true },
}
