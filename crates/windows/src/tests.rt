// Loggers turned and windows, nested both ways, and ends that do not fit.
use crate::turning::Turned;
use crate::viewing::Window;
use denials::Denial;
use loggers::{Diagonal, Logger, TableLogger};
use std::test::Fail;

#[test]
fn window_of_turned_row(rt: HostRuntime) -> Result<(), Fail> {
    let mut row = TableLogger::new();
    row.fill(&[1, 1, 4, 9])?;
    let window = Window::new(Turned::new(row), 1, 3);
    assert!(rt; window.span() == 2);
    assert!(rt; window.first() == 5);
    assert!(rt; window.count(1) == Some(8));
    assert!(rt; window.count(2) == Some(8));
    assert!(rt; window.count(3) == None);
    Ok(())
}

#[test]
fn turned_window_of_diagonal(rt: HostRuntime) -> Result<(), Fail> {
    let turned = Turned::new(Window::new(Diagonal::new(10, 3)?, 4, 6));
    assert!(rt; turned.span() == 2);
    assert!(rt; turned.first() == 0);
    assert!(rt; turned.count(1) == Some(3));
    assert!(rt; turned.last() == 6);
    Ok(())
}

#[test]
fn ends_that_do_not_fit(rt: HostRuntime) -> Result<(), Fail> {
    let diagonal = Diagonal::new(10, 3)?;
    assert!(rt; Window::check(&diagonal, 0, 10) == Ok(()));
    assert!(rt; Window::check(&diagonal, 3, 3) == Err(Denial::Window));
    assert!(rt; Window::check(&diagonal, 3, 11) == Err(Denial::Window));
    let whole = Window::new(diagonal, 3, 11);
    assert!(rt; whole.span() == 10);
    assert!(rt; whole.count(10) == Some(30));
    Ok(())
}
