use rpc_channel::*;
use std::process::Abort;
use std::test::Fail;

fn adds(rt: &impl Abort, channels: &mut Channels, id: u32, want: Result<(), ChannelRefused>) {
    assert!(rt; id != 0);
    assert_eq!(rt; channels.add(id), want, "{id}");
}

fn removes(rt: &impl Abort, channels: &mut Channels, id: u32, want: bool) {
    assert_eq!(rt; channels.remove(id), want);
}

fn has(rt: &impl Abort, channels: &Channels, id: u32, want: bool) {
    assert_eq!(rt; channels.is_in(id), want);
}

#[test]
fn a_channel_is_there_once_and_65_are_too_many(rt: HostRuntime) -> Result<(), Fail> {
    let mut channels = Channels::new(rt.alloc());
    adds(&rt, &mut channels, 1, Ok(()));
    adds(&rt, &mut channels, 1, Err(ChannelRefused::There));
    for id in 2..65u32 {
        adds(&rt, &mut channels, id, Ok(()));
    }
    adds(&rt, &mut channels, 65, Err(ChannelRefused::Full));
    adds(&rt, &mut channels, 64, Err(ChannelRefused::There));
    assert_eq!(rt; channels.list().len(), 64);
    Ok(())
}

#[test]
fn ids_are_listed_in_rising_order(rt: HostRuntime) -> Result<(), Fail> {
    let mut channels = Channels::new(rt.alloc());
    adds(&rt, &mut channels, 7, Ok(()));
    adds(&rt, &mut channels, 3, Ok(()));
    adds(&rt, &mut channels, 4_294_967_295, Ok(()));
    adds(&rt, &mut channels, 5, Ok(()));
    removes(&rt, &mut channels, 5, true);
    removes(&rt, &mut channels, 5, false);
    has(&rt, &channels, 7, true);
    has(&rt, &channels, 5, false);
    assert_eq!(rt; channels.list(), [3u32, 7, 4_294_967_295].as_slice());
    Ok(())
}
