// Worked texts: what decide gives, byte for byte, and what it leaves alone.
use crate::decide;
use std::process::Abort;
use std::test::Fail;

// What a space holds before the call.
const FILL: u8 = b'#';

// The text has this listing, and the space beyond it is not touched.
fn gives(rt: &(impl Abort + AllocGlobal), text: &[u8], wanted: &[u8]) -> Result<(), Fail> {
    let mut space = vec![in rt.alloc(); FILL; 4100]?;
    let Ok(long) = decide(text, &mut space) else {
        return Err(Fail::new("declined"));
    };
    assert!(rt; &space[0..long] == wanted);
    assert!(rt; space[long..].iter().all(|byte| *byte == FILL));
    Ok(())
}

// The text is declined by this number, line and field, and the space is as it was.
fn declines(
    rt: &(impl Abort + AllocGlobal),
    text: &[u8],
    room: usize,
    number: u8,
    line: usize,
    field: u8,
) -> Result<(), Fail> {
    let mut space = vec![in rt.alloc(); FILL; room]?;
    let Err(declined) = decide(text, &mut space) else {
        return Err(Fail::new("not declined"));
    };
    assert_eq!(rt; declined.number(), number);
    assert_eq!(rt; declined.line(), line);
    assert_eq!(rt; declined.field(), field);
    assert!(rt; space.iter().all(|byte| *byte == FILL));
    Ok(())
}

#[test]
fn queues_are_listed(rt: HostRuntime) -> Result<(), Fail> {
    gives(
        &rt,
        b"duty,window,2\nqueue,1\n",
        b"verdict,4,9,3\nplace,0,house\nplace,1,house\nplace,2,guest,2\nplace,3,house\n",
    )?;
    gives(
        &rt,
        b"duty,window,3\nqueue,3\n",
        b"verdict,8,17,5\nplace,0,house\nplace,1,house\nplace,2,house\nplace,3,house\nplace,4,guest,4\nplace,5,house\nplace,6,guest,3\nplace,7,guest,3\n",
    )
}

#[test]
fn bounds_are_read(rt: HostRuntime) -> Result<(), Fail> {
    gives(
        &rt,
        b"duty,window\nqueue,1\n",
        b"verdict,4,57,4\nplace,0,house\nplace,1,house\nplace,2,house\nplace,3,house\n",
    )?;
    gives(
        &rt,
        b"duty,window,32\nqueue,1\n",
        b"verdict,4,249,4\nplace,0,house\nplace,1,house\nplace,2,house\nplace,3,house\n",
    )?;
    declines(&rt, b"duty,window,33\nqueue,1\n", 4096, 14, 1, 3)?;
    declines(&rt, b"duty,window,0\nqueue,1\n", 4096, 14, 1, 3)?;
    declines(&rt, b"duty,window,03\nqueue,1\n", 4096, 13, 1, 3)
}

#[test]
fn lines_are_cut(rt: HostRuntime) -> Result<(), Fail> {
    let long = b"duty,window,00000000000000000000000000000000000000000000000000000\nqueue,1\n";
    assert!(rt; long[65] == b'\n');
    declines(&rt, long, 4096, 11, 1, 0)?;
    let fit = b"duty,window,0000000000000000000000000000000000000000000000000000\nqueue,1\n";
    assert!(rt; fit[64] == b'\n');
    declines(&rt, fit, 4096, 13, 1, 3)?;
    declines(&rt, b"duty,window,2\nqueue,1", 4096, 11, 2, 0)?;
    declines(&rt, b"duty,window,2\n\nqueue,1\n", 4096, 12, 2, 0)
}

#[test]
fn lines_come_when_due(rt: HostRuntime) -> Result<(), Fail> {
    declines(&rt, b"", 4096, 12, 1, 0)?;
    declines(&rt, b"duty,window,2\n", 4096, 12, 2, 0)?;
    declines(&rt, b"queue,1\n", 4096, 12, 1, 0)?;
    declines(&rt, b"duty,window,2\nqueue,1\nqueue,1\n", 4096, 12, 3, 0)?;
    declines(&rt, b"duty,window,2\nsite,1\n", 4096, 12, 2, 0)?;
    declines(&rt, b"duty,window,2,2\nqueue,1\n", 4096, 12, 1, 0)?;
    declines(&rt, b"duty,wind,99\nqueue,1\n", 4096, 13, 1, 2)
}

#[test]
fn capacities_have_limits(rt: HostRuntime) -> Result<(), Fail> {
    declines(&rt, b"duty,window,2\nqueue,0\n", 4096, 14, 2, 2)?;
    declines(&rt, b"duty,window,2\nqueue,64\n", 4096, 14, 2, 2)?;
    declines(&rt, b"duty,window,2\nqueue,257\n", 4096, 14, 2, 2)?;
    declines(&rt, b"duty,window,2\nqueue,1000\n", 4096, 13, 2, 2)?;
    declines(&rt, b"duty,window,2\nqueue,\n", 4096, 13, 2, 2)
}

#[test]
fn a_refusal_is_told(rt: HostRuntime) -> Result<(), Fail> {
    let mut space = vec![in rt.alloc(); FILL; 4096]?;
    let Err(declined) = decide(b"duty,window,33\nqueue,1\n", &mut space) else {
        return Err(Fail::new("not declined"));
    };
    let told = declined.to_string(rt.alloc())?;
    assert_eq!(rt; told.as_str(), "refused,14,1,3");
    Ok(())
}

#[test]
fn the_space_comes_last(rt: HostRuntime) -> Result<(), Fail> {
    declines(&rt, b"duty,window,2\nqueue,1\n", 4095, 23, 0, 0)?;
    declines(&rt, b"duty,window,2\nqueue,64\n", 4095, 14, 2, 2)
}
