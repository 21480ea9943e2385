use crate::fault::WriteFault;
use crate::write::{write_entry, write_feed};
use feed::entry::Entry;
use rank::key::Flag;

fn trade(reference: &[u8]) -> Entry<'_> {
    Entry::Trade {
        reference,
        buyer: 24,
        buyer_flag: Flag::ForeignClient,
        seller: 1,
        seller_flag: Flag::LocalPrincipal,
        security: 16,
        quantity: 100_000_000,
        price: 1_000_000,
    }
}

#[test]
fn writes_and_refuses(rt: HostRuntime) {
    let mut out = [0u8; 31];
    let entries = [
        trade(b"B"),
        Entry::Close {
            security: 3,
            price: 1050,
        },
    ];
    assert_eq!(rt; write_feed(&mut out, &entries), Ok(30));
    assert!(rt;
        &out[0..31]
            == b"TRF\x00\x01T\x01B\x18FC\x01LP\x10\x05\xf5\xe1\x00\x00\x0f\x42\x40C\x03\x00\x00\x04\x1aZ\x00".as_slice()
    );
    assert_eq!(rt;
        write_entry(
            &mut out,
            26,
            &Entry::Close {
                security: 3,
                price: 1050,
            },
        ),
        Err(WriteFault::Room)
    );
    assert_eq!(rt;
        write_entry(&mut out, 5, &trade(b"")),
        Err(WriteFault::Reference)
    );
    assert_eq!(rt;
        write_entry(&mut out, 5, &trade(b"seventeen letters")),
        Err(WriteFault::Reference)
    );
    assert_eq!(rt;
        write_feed(&mut out[0..29], &entries),
        Err(WriteFault::Room)
    );
}
