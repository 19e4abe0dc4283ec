//! The numbers of requests.

use cl_pool::{DrawFault, Draws};
use std::test::Fail;

/// Two seats draw the numbers of two requests, and a third one is not to be had.
#[test]
fn two_seats_draw_two_numbers(rt: HostRuntime) -> Result<(), Fail> {
    let (draws, mut first) = Draws::new(rt.alloc(), 2, 2)?;
    assert_eq!(rt; draws.draw(&mut first), Some(0));
    let mut second = draws.split(&mut first)?;
    assert_eq!(rt; draws.draw(&mut second), Some(1));
    assert_eq!(rt; draws.split(&mut first).err(), Some(DrawFault::Workers));
    assert_eq!(rt; draws.split(&mut second).err(), Some(DrawFault::Workers));
    assert_eq!(rt; draws.draw(&mut first), None);
    assert_eq!(rt; draws.draw(&mut second), None);
    Ok(())
}
