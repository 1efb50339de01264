//! The order of points.
use osek_standard::Point;
use osek_values::{BlockNo, TaskNo};
use std::test::*;

fn over(block: u16, task: Option<TaskNo>) -> Point {
    Point::Routine {
        block: BlockNo(block),
        over: task,
    }
}

/// Whether a point is before another, which is neither before it nor before itself.
fn are_in_order(one: Point, other: Point) -> bool {
    one.is_before(other) && !other.is_before(one) && !other.is_before(other)
}

/// The number of the first that doesn't come behind the one before it.
fn first_wrong(points: &[Point]) -> Option<usize> {
    for number in 1..points.len() {
        if !are_in_order(points[number - 1], points[number]) {
            return Some(number);
        }
    }
    None
}

#[test]
fn points_in_order(rt: HostRuntime) {
    let points = [
        Point::Halted,
        Point::Idle,
        Point::Task(BlockNo(0)),
        Point::Task(BlockNo(1)),
        over(2, None),
        over(2, Some(TaskNo(0))),
        over(2, Some(TaskNo(255))),
        over(3, None),
        Point::Task(BlockNo(65_535)),
    ];
    assert!(rt; first_wrong(&points) == None);
}

#[test]
fn the_last_point_has_the_greatest_number(rt: HostRuntime) {
    assert!(rt; over(65_535, Some(TaskNo(255))).number() == 16_842_753);
    assert!(rt; Point::Idle.number() == 1);
}
