use crate::channel::Record;
use crate::estimator::Estimator;
use crate::rig::{Rig, Settings};
use crate::store::PlainStore;
use crate::text::{append_end, append_line};
use std::alloc::{AllocError, Global};
use std::test::Fail;

// The lines of the session that the rules describe.
const LINES: &str = "0 O 3 - - - - -
0 S 3 0 700 0 10 1
0 S 3 1 701 1 0 0
10 D 3 0 700 2 10 1
20 A 3 0 - - - -
30 T 3 0 700 - - -
30 T 3 - - - - -
1000 R 3 1 701 3 10 1
1010 D 3 1 701 4 10 1
1020 A 3 1 - - - -
1030 T 3 1 701 - - -
1030 X 12 - -
1030 E 5
";

fn rig(heap: Global) -> Result<Rig, AllocError> {
    let mut wire = PlainStore::new(heap, 512, 0, 16_777_215, 0);
    wire.lay_quota(&[32; 64]);
    let resend = PlainStore::new(heap, 256, 0, 16_777_215, 0);
    let keepalive = PlainStore::new(heap, 64, 0, 16_777_215, 0);
    let table = vec![in heap; Record::unused(); 64]?;
    let settings = Settings {
        default_delay: 10,
        interval: 5_000,
    };
    Rig::new(heap, settings, wire, resend, keepalive, table, 8)
}

// Makes steps until a tick, and appends their lines.
fn step_until(rig: &mut Rig, out: &mut String, tick: u32) -> Result<(), AllocError> {
    for _ in 0..5_000 {
        let is_due = rig.wire.due() || rig.resend.due() || rig.keepalive.due();
        if rig.wire.now() >= tick && !is_due {
            return Ok(());
        }
        let answer = rig.step()?;
        append_line(out, rig.wire.now(), &answer)?;
        if answer.is_err() {
            return Ok(());
        }
    }
    Ok(())
}

#[test]
fn the_worked_session_prints_its_lines(rt: HostRuntime) -> Result<(), Fail> {
    let heap = rt.alloc();
    let mut rig = rig(heap)?;
    rig.add_fate(10)?;
    rig.add_fate(0)?;
    rig.begin()?;
    let mut out = String::new(heap);
    let answer = rig.open(3)?;
    append_line(&mut out, rig.wire.now(), &answer)?;
    let answer = rig.send(3, 700)?;
    append_line(&mut out, rig.wire.now(), &answer)?;
    let answer = rig.send(3, 701)?;
    append_line(&mut out, rig.wire.now(), &answer)?;
    step_until(&mut rig, &mut out, 30)?;
    let answer = rig.take(3);
    append_line(&mut out, rig.wire.now(), &answer)?;
    let answer = rig.take(3);
    append_line(&mut out, rig.wire.now(), &answer)?;
    step_until(&mut rig, &mut out, 1_030)?;
    let answer = rig.take(3);
    append_line(&mut out, rig.wire.now(), &answer)?;
    let answer = rig.send(9, 5)?;
    append_line(&mut out, rig.wire.now(), &answer)?;
    let (tick, packets) = rig.finish();
    append_end(&mut out, tick, packets)?;
    assert_eq!(rt; out.as_str(), LINES);
    Ok(())
}

#[test]
fn the_estimator_has_the_numbers_of_its_table(rt: HostRuntime) {
    let new = Estimator::without_sample();
    let first = new.after(2_000);
    let second = first.after(1_000);
    let third = second.after(1_003);
    assert_eq!(rt; new.after(20).timeout(), 1_000);
    assert_eq!(rt; first.timeout(), 6_000);
    assert_eq!(rt; second.timeout(), 5_875);
    assert_eq!(rt; third.timeout(), 5_638);
}
