use crate::line::Line;
use crate::members::nearest;

// 0 <- 1 <- 3, 0 <- 2
#[test]
fn climbs(rt: HostRuntime) {
    let mut line = Line::new();
    assert!(rt; line.add(0).is_ok());
    assert!(rt; line.add(0).is_ok());
    assert!(rt; line.add(1).is_ok());
    assert!(rt; line.add(4).is_err());
    assert_eq!(rt; line.rows(), 4);
    assert!(rt; line.descends(3, 1) && line.descends(3, 0) && line.descends(2, 2));
    assert!(rt; !line.descends(3, 2) && !line.descends(1, 3) && !line.descends(4, 4));
    let only = |row: u8| if row == 1 { Some(70u16) } else { None };
    assert_eq!(rt; nearest(&line, 3, &only), Some((1, 70)));
    assert_eq!(rt; nearest(&line, 2, &only), None);
}
