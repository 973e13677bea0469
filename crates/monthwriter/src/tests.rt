// The worked file of July 2022, and the limits of the writer.
use crate::{WriteFault, write};
use plan::{Booking, CarriedPeak, Meter, Plan};
use std::process::Abort;
use words::Window;

// The worked file, word by word.
const JULY: [u32; 17] = [
    0x17E67002, 0x2000042B, 0x300003E8, 0x2400042B, 0x340003E8, 0x2800042B, 0x380003E8, 0x2C00042B,
    0x3C0003E8, 0x40000000, 0x40400001, 0x50000000, 0x6000012C, 0x60000064, 0x50100000, 0x60000064,
    0x600000C8,
];

// A plan of July 2022 with so many segments; a full one has two meters.
fn july(rt: &(impl Abort + AllocGlobal), segments: u32) -> Plan {
    let mut plan = Plan::new(rt.alloc());
    assert!(rt; plan.set_period(2022, 7, 2).is_ok());
    for segment in 0..segments {
        assert!(rt; plan.add_segment(segment, 0, 1067, 1000).is_ok());
    }
    if plan.is_full() {
        for number in [0, 1] {
            let meter = Meter {
                segment: 0,
                number,
                user: number,
                station: 0,
            };
            assert!(rt; plan.add_meter(meter).is_ok());
        }
    }
    plan
}

fn booked(fields: [u32; 4]) -> Booking {
    let [segment, meter, hour, amount] = fields;
    Booking {
        segment,
        meter,
        hour,
        amount,
    }
}

// The number of the refusal, or 0 where the file is written: the values of the tables below.
fn answer(plan: &Plan, fields: [u32; 4], out: &mut [u8]) -> u8 {
    write(plan, &[booked(fields)], out)
        .err()
        .map_or(0, WriteFault::number)
}

#[test]
fn worked_file(rt: HostRuntime) {
    let plan = july(&rt, 4);
    let bookings = [
        booked([0, 0, 0, 300]),
        booked([0, 0, 1, 100]),
        booked([0, 1, 0, 100]),
        booked([0, 1, 1, 200]),
    ];
    let mut out = [0xAA; 70];
    assert_eq!(rt; write(&plan, &bookings, &mut out).ok(), Some(68));
    let (file, beyond) = out.split_at(68);
    let mut window = Window::new(file, 0);
    for word in JULY {
        let number = window.number();
        assert_eq!(rt; window.next(), Some((number, word)));
    }
    assert_eq!(rt; beyond, [0xAA, 0xAA].as_slice());
}

#[test]
fn carried_peak(rt: HostRuntime) {
    let mut plan = july(&rt, 4);
    let peak = CarriedPeak {
        meter: 1,
        amount: 500,
    };
    assert!(rt; plan.add_carried(peak).is_ok());
    let mut out = [0; 48];
    assert_eq!(rt; write(&plan, &[], &mut out).ok(), Some(48));
    let [.., a, b, c, d] = out;
    assert_eq!(rt; [a, b, c, d], [0x70, 0x10, 0x01, 0xF4]);
}

#[test]
fn bookings(rt: HostRuntime) {
    let plan = july(&rt, 4);
    let rows = [
        ([3, 63, 744, 32_767], 0),
        ([4, 63, 744, 32_767], 3),
        ([3, 64, 744, 32_767], 3),
        ([3, 63, 745, 32_767], 3),
        ([3, 63, 744, 32_768], 3),
    ];
    for (fields, number) in rows {
        assert_eq!(rt; answer(&plan, fields, &mut [0; 52]), number);
    }
}

// Whatever else is wrong, the first fault is told, and the memory stays as it was.
#[test]
fn refusals(rt: HostRuntime) {
    let rows = [(3, 745, 2), (4, 745, 3), (4, 744, 10)];
    for (segments, hour, number) in rows {
        let plan = july(&rt, segments);
        let mut out = [0xAA; 51];
        assert_eq!(rt; answer(&plan, [0, 0, hour, 0], &mut out), number);
        assert_eq!(rt; out, [0xAA; 51]);
    }
}
