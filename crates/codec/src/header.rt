// A key store's header, read out of any bytes.
ghost use Rattle.std.specs.Prelude.{◌≡◌};
ghost use Rattle.layout.specs.Header.{header_of};
ghost use Rattle.codec.specs.Header.{kind_headed, read_header};

use layout::places::chunk_place;
use layout::{DATA_LIMIT, HEADER_LENGTH, LOG_CAPACITY, StoreKind, TAG_LENGTH};
use octets::words::read_u32;
use scheme::Header;
use scheme::ranges::out_of_range;

// The header, where the bytes are a store of a kind, of counts and parameters and of a length that one may have.
pub fn read_header(store: &[u8]) -> Option<Header>
    ensures { result ≡ read_header store.now }
{
    let kind = headed_kind(store)?;
    let header = fields(store, kind);
    if out_of_range(header) {
        return None;
    }
    if store.len() != chunk_place(header.header_length, header.chunks) {
        return None;
    }
    Some(header)
}

// The kind of the store, where a whole header of a kind stands there.
fn headed_kind(store: &[u8]) -> Option<StoreKind>
    ensures { result ≡ kind_headed store.now }
{
    if store.len() < HEADER_LENGTH as usize {
        return None;
    }
    let Ok(kind) = StoreKind::try_from(store[0]) else {
        return None;
    };
    if store.len() < kind.header_length() as usize {
        return None;
    }
    Some(kind)
}

// The fields of a header of the kind, which is whole. The set is read here, and nowhere else.
fn fields(store: &[u8], kind: StoreKind) -> Header
    requires { kind_headed store.now ≡ Some kind }
    ensures { result ≡ header_of store.now }
{
    let phases = store[9];
    let chunks = read_u32(store, 10);
    let ratchet = read_u32(store, 14);
    let header_length = kind.header_length();
    match kind {
        StoreKind::Plain => Header {
            phases,
            chunks,
            ratchet,
            header_length,
            tag_length: TAG_LENGTH,
            data_limit: DATA_LIMIT,
            log_capacity: LOG_CAPACITY,
        },
        StoreKind::OwnSet => Header {
            phases,
            chunks,
            ratchet,
            header_length,
            tag_length: store[18] as u32,
            data_limit: read_u32(store, 19),
            log_capacity: read_u32(store, 23),
        },
    }
}
