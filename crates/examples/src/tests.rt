use addresses::field::AddressField;
use reader::read;
use std::test::Fail;
use terms::refusal::Refusal;
use wire::header::Ports;
use wire::kind::NumberType;
use wire::pdu::Pdu;
use writer::{Payload, write_data_long};

// A Data_Long to 10.0.0.1, from port 49152 to port 9201, with the octets of "ok".
const TO_TEN: [u8; 15] = [
    0x04, 0x04, 0x0A, 0x00, 0x00, 0x01, 0x06, 0x05, 0x04, 0x23, 0xF1, 0xC0, 0x00, 0x6F, 0x6B,
];

fn payload() -> Payload<'static> {
    Payload {
        more: false,
        ports: Ports {
            to: 9201,
            from: 49152,
        },
        segment: None,
        user: b"ok",
    }
}

#[test]
fn reads_the_long_string(rt: HostRuntime) -> Result<(), Fail> {
    match read(&TO_TEN) {
        Ok(
            Pdu::DataLong {
                more,
                address,
                body,
            },
        ) => {
            assert!(rt; !more);
            assert!(rt; address.place == 1);
            assert!(rt; address.octets == [0x04, 0x0A, 0x00, 0x00, 0x01].as_slice());
            assert!(rt; body.ports.to == 9201);
            assert!(rt; body.ports.from == 49152);
            assert!(rt; body.user.place == 13);
            assert!(rt; body.user.octets == b"ok".as_slice());
            Ok(())
        }
        _ => Err(Fail::new("no Data_Long")),
    }
}

#[test]
fn writes_the_long_string(rt: HostRuntime) {
    let address = AddressField::ipv4([10, 0, 0, 1]);
    let mut out = [0xEEu8; 17];
    assert_eq!(rt; write_data_long(&address, payload(), &mut out), Ok(15));
    assert!(rt; &out[0..15] == TO_TEN.as_slice());
    assert!(rt; &out[15..17] == [0xEE, 0xEE].as_slice());
}

#[test]
fn a_small_buffer_is_left_as_it_was(rt: HostRuntime) {
    let address = AddressField::ipv4([10, 0, 0, 1]);
    let mut out = [0xEEu8; 14];
    assert_eq!(rt;
        write_data_long(&address, payload(), &mut out),
        Err(Refusal::Buffer)
    );
    assert!(rt; &out == &[0xEE; 14]);
}

#[test]
fn numbers_are_packed(rt: HostRuntime) -> Result<(), Fail> {
    let Ok(field) = AddressField::msisdn("46123", NumberType::International) else {
        return Err(Fail::new("46123 is a number"));
    };
    assert!(rt; field.as_slice() == [0x45, 0x05, 0x91, 0x64, 0x21, 0xF3].as_slice());
    assert!(rt; AddressField::msisdn("+46123", NumberType::International).is_err());
    assert!(rt; AddressField::msisdn("", NumberType::Unknown).is_err());
    Ok(())
}
