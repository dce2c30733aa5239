ghost use Rattle.ir_tasks.specs.TaskFrames.{IsUnfinished};

use super::*;
use hw_base::ByteList;
use hw_tags::WordsSpec;
use std::alloc::Global;
use std::process::Abort;
use std::test::Fail;

/// The function, the place, the chain and the first three registers of a task's newest frame.
fn newest(tasks: &Tasks, task: u32) -> (u32, u32, u32, [u128; 3])
    requires { IsUnfinished tasks.now task }
{
    (
        tasks.func(task),
        tasks.place(task),
        tasks.chain(task),
        [tasks.reg(task, 0), tasks.reg(task, 1), tasks.reg(task, 2)],
    )
}

#[test]
fn registers_and_places_are_of_the_newest_frame(rt: HostRuntime) -> Result<(), Fail> {
    let mut tasks = Tasks::new(rt.alloc());
    tasks.start(7, 2, 3)?;
    assert_eq!(rt; tasks.start(8, 3, 4)?, Some(1));
    assert_eq!(rt; tasks.started(), 2);
    assert!(rt; !tasks.is_finished(1));
    assert_eq!(rt; newest(&tasks, 1), (8, 0, 4, [0, 0, 0]));
    tasks.set(1, 1, 5);
    tasks.set(1, 3, 6);
    tasks.set_place(1, 9);
    assert_eq!(rt; newest(&tasks, 1), (8, 9, 4, [0, 5, 0]));
    assert!(rt; !tasks.is_finished(0));
    assert_eq!(rt; newest(&tasks, 0), (7, 0, 3, [0, 0, 0]));
    Ok(())
}

#[test]
fn calls_end_where_they_began(rt: HostRuntime) -> Result<(), Fail> {
    let mut tasks = Tasks::new(rt.alloc());
    tasks.start(7, 1, 0)?;
    assert_eq!(rt; tasks.started(), 1);
    assert!(rt; !tasks.is_finished(0));
    tasks.set(0, 0, 11);
    tasks.set_place(0, 4);
    assert_eq!(rt; tasks.depth(0), 1);
    tasks.push(0, 8, 2, 6)?;
    assert_eq!(rt; tasks.depth(0), 2);
    assert_eq!(rt; newest(&tasks, 0), (8, 0, 6, [0, 0, 0]));
    assert!(rt; !tasks.pop(0));
    assert_eq!(rt; newest(&tasks, 0), (7, 4, 0, [11, 0, 0]));
    assert!(rt; tasks.pop(0));
    assert_eq!(rt; (tasks.started(), tasks.unfinished()), (1, 0));
    assert!(rt; tasks.is_finished(0));
    assert_eq!(rt; tasks.depth(0), 0);
    Ok(())
}

#[test]
fn as_many_tasks_start_as_there_may_be(rt: HostRuntime) -> Result<(), Fail> {
    let mut tasks = Tasks::new(rt.alloc());
    for number in 0..64 {
        assert_eq!(rt; tasks.start(number, 1, 0)?, Some(number));
    }
    assert_eq!(rt; tasks.start(0, 1, 0)?, None);
    assert_eq!(rt; tasks.started(), 64);
    assert_eq!(rt; tasks.unfinished(), 64);
    assert!(rt; !tasks.is_finished(63));
    assert_eq!(rt; tasks.func(63), 63);
    Ok(())
}

/// Three tasks, and the turn words 7, 3, 5, 4 on and on.
fn three(alloc: Global) -> Result<(Tasks, Turns), Fail> {
    let mut tasks = Tasks::new(alloc);
    for func in 0..3 {
        tasks.start(func, 1, 0)?;
    }
    let words = ByteList::from_vec([7u8, 3, 5, 4].to_vec(alloc)?);
    let turns = Turns::new(alloc, &WordsSpec::Cycle(words))?;
    Ok((tasks, turns))
}

/// A task's last frame ends.
fn finish(rt: &impl Abort, tasks: &mut Tasks, task: u32) {
    assert!(rt; task < tasks.started());
    assert!(rt; !tasks.is_finished(task));
    assert!(rt; tasks.pop(task));
}

/// The task that is chosen.
fn picked(rt: &impl Abort, turns: &mut Turns, tasks: &Tasks) -> u32 {
    assert!(rt; tasks.unfinished() > 0);
    turns.pick(tasks)
}

#[test]
fn words_choose_among_the_unfinished_tasks(rt: HostRuntime) -> Result<(), Fail> {
    let (mut tasks, mut turns) = three(rt.alloc())?;
    assert_eq!(rt; picked(&rt, &mut turns, &tasks), 1);
    assert_eq!(rt; picked(&rt, &mut turns, &tasks), 0);
    finish(&rt, &mut tasks, 1);
    assert_eq!(rt; picked(&rt, &mut turns, &tasks), 2);
    assert_eq!(rt; picked(&rt, &mut turns, &tasks), 0);
    finish(&rt, &mut tasks, 2);
    assert_eq!(rt; picked(&rt, &mut turns, &tasks), 0);
    tasks.start(3, 1, 0)?;
    assert_eq!(rt; picked(&rt, &mut turns, &tasks), 3);
    finish(&rt, &mut tasks, 0);
    assert_eq!(rt; picked(&rt, &mut turns, &tasks), 3);
    Ok(())
}
