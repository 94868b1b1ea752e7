// Plans in many turns, each beside what it means.
use crate::plans::plan;
use crate::running::{Turn, by_tasks};
use crate::setting::inputs;
use std::alloc::Global;
use std::process::Abort;
use std::thread::Threads;

// A line for each plan: whether its STOREs are lists, its words, the inputs, and what it means: the lines of each STORE,
// sorted by their bytes where it is no list, with a line `.` behind them, and the statements that are not met. An LF
// stands as `~`, a CR as `^`, a tab as `_`, and pieces behind bars.
const CASES: &str = "\
bag @ ic=a f0 s1 @ a|1_x^~2_y^~~3_z^~||4_w~5_v^~7 @ 2_y~3_z~4_w~5_v~7_~.~
bag @ ii=a w0 s1 @ a|7_2~-7_2~3_0~|2147483647_9~_1~x_y~1 @ ___~___~___~-9_-14_-3_-1~2147483638_2147483639_238609294_1~3_0__~5_14_3_1~.~
bag @ c=a t0 s1 @ a|the cat~the dog, the end~|~cat~ @ ~cat~cat~dog~end~the~the~the~.~
bag @ ii=a g0 S1 s2 @ a|1_5~2_7~1_~_4~|_6~2_9~1_1 @ _0_10~1_3_6~2_2_16~.~
bag @ ii=a f0 a1 S2 s3 @ a|1_5~2_7~|3_~_4~9_1 @ all_3_8~.~
bag @ i=a a0 c1 s2 s1 @ a|| @ .~.~
bag @ i=a a0 s1 @ a|3~1~2~|1~ @ all_{(1),(1),(2),(3)}~.~
bag @ ci=a g0 s1 @ a|b_1~a_2~b_3~|_4~a_2~_5~b_0 @ _{(,4),(,5)}~a_{(a,2),(a,2)}~b_{(b,0),(b,1),(b,3)}~.~
bag @ ic=a ic=b g01 s2 @ a|1_x~_y~2_z~|_t~1_u~;b|1_p~|_q~3_r~ @ _{(,t),(,y)}_{}~_{}_{(,q)}~1_{(1,u),(1,x)}_{(1,p)}~2_{(2,z)}_{}~3_{}_{(3,r)}~.~
bag @ ic=a ic=b j01 l01 J01 s2 s3 s4 @ a|1_x~_y~2_z~|1_t~;b|1_p~|_q~3_r~1_s~ @ 1_t_1_p~1_t_1_s~1_x_1_p~1_x_1_s~.~_y__~1_t_1_p~1_t_1_s~1_x_1_p~1_x_1_s~2_z__~.~___q~__3_r~_y__~1_t_1_p~1_t_1_s~1_x_1_p~1_x_1_s~2_z__~.~
bag @ ic=a j00 d1 s2 @ a|1_x~_y~1_x~|1_z~ @ 1_x_1_x~1_x_1_z~1_z_1_x~1_z_1_z~.~
bag @ ic=a d0 s1 @ a|1_x~1_y~1_x~|1_x~_~1_y~_~2 @ _~1_x~1_y~2_~.~
bag @ i=a i=b u01 s2 @ a|1~2~|3;b|2~||4~ @ 1~2~2~3~4~.~
bag @ i=a f0 u01 d2 s2 s3 @ a|1~2~|3~2 @ 1~2~2~2~2~3~3~.~1~2~3~.~
bag @ i=a i=b u01 g2 c3 s4 @ a|1~2~|3;b|2~||4~ @ 1_1~2_2~3_1~4_1~.~
list @ ic=a O00 s1 @ a|2_b~1_a~2_a~|_n~3_c~2_b~|1_z~2_a @ _n~1_a~1_z~2_a~2_a~2_b~2_b~3_c~.~
list @ ic=a o001 s1 @ a|2_b~1_a~2_a~|_n~3_c~2_b~|1_z~2_a @ 3_c~2_a~2_a~2_b~2_b~1_a~1_z~_n~.~
list @ ic=a o01 L13 s2 s1 @ a|2_b~1_a~2_a~|_n~3_c~2_b~|1_z~2_a @ 1_z~_n~3_c~.~1_z~_n~3_c~2_b~2_b~1_a~2_a~2_a~.~
list @ i=a O00 L10 L19 s2 s3 @ a|2~1~|3 @ .~1~2~3~.~
bag @ ic=a O00 f1 s2 @ a|2_b~1_a~|3_c~ @ 2_b~3_c~.~
list @ c=a t0 g1 c2 o310 s4 @ a|the cat~the dog, the end~|cat~ @ the_3~cat_2~dog_1~end_1~.~
list @ ii=a ii=b j01 g2 S3 o41 L52 s6 @ a|1_2~2_2~|3_3~1_9~;b|1_5~2_6~|3_30~1_7 @ 1_4_22~2_1_2~.~
bag @ ii=a s0 s0 @ a|1_2^~|3_4~~5 @ _~1_2~3_4~5_~.~_~1_2~3_4~5_~.~
bag @ i=a x0 s1 @ a|2~|3~ @ 2~3~.~
bag @ i=a x0 s1 @ a|1~2~|3 @ 1~2~3~.~ 2
bag @ i=a g0 c1 x2 d0 x4 s3 s5 @ a|1~2~|2 @ 1_1~2_2~.~1~2~.~ 4 6
bag @ i=a g00 s1 @ a|1~2~|2 @ 1_{(1)}_{(1)}~2_{(2),(2)}_{(2),(2)}~.~
bag @ i=a i=b l01 l10 J01 J10 s2 s3 s4 s5 @ a|;b|1~2 @ .~1_~2_~.~_1~_2~.~1_~2_~.~
bag @ i=a i=b i=c g012 s3 @ a|1~2;b|2~3;c|~3~|1 @ _{}_{}_{()}~1_{(1)}_{}_{(1)}~2_{(2)}_{(2)}_{}~3_{}_{(3)}_{(3)}~.~
bag @ i=a i=b i=c j012 s3 @ a|1~2~2;b|2~3~2;c|~3~|2 @ 2_2_2~2_2_2~2_2_2~2_2_2~.~
bag @ i=a i=b d0 d1 j23 s4 @ a|1~2~1;b|1~1~|2 @ 1_1~2_2~.~
bag @ i=a u00 u11 d2 s3 s2 @ a|1~2|3 @ 1~2~3~.~1~1~1~1~2~2~2~2~3~3~3~3~.~
bag @ ic=a O00 L12 d2 g3 c4 s5 @ a|2_b~1_a~|3_c~1_z @ 1_2~.~
bag @ ii=a a0 S1 s2 s1 @ a|2147483647_2147483647~1_2147483647~|_1 @ all_2_4294967295~.~all_{(,1),(1,2147483647),(2147483647,2147483647)}~.~
list @ ic=a O00 x1 L23 s3 @ a|2_b~1_a~|3_c~1_z @ 1_a~1_z~2_b~.~ 3
list @ ic=a O00 o11 L22 s3 s2 @ a|2_b~1_a~|3_c~1_z @ 1_z~3_c~.~1_z~3_c~2_b~1_a~.~
list @ ic=a O00 L13 L22 s3 @ a|2_b~1_a~|3_c~1_z @ 1_a~1_z~.~
bag @ i=a s0 @ b|1~ @ .~
bag @ i=a g0 s1 @ a @ .~
bag @ ic=a R00 s1 @ a|2_b~1_a~2_a~|_n~3_c~2_b~|1_z~2_a @ 1__n~2_1_a~2_1_z~4_2_a~4_2_a~4_2_b~4_2_b~8_3_c~.~
bag @ ic=a P00 s1 @ a|2_b~1_a~2_a~|_n~3_c~2_b~|1_z~2_a @ 1__n~2_1_a~2_1_z~3_2_a~3_2_a~3_2_b~3_2_b~4_3_c~.~
bag @ ic=a e00 R01 s1 s2 @ a|2_b~1_a~2_a~|_n~3_c~2_b~|1_z~2_a @ 1_3_c~2_2_a~2_2_a~2_2_b~2_2_b~6_1_a~6_1_z~8__n~.~1_1_a~1_2_a~1_2_a~4_2_b~4_2_b~6_3_c~7__n~8_1_z~.~
bag @ ic=a e001 p001 s1 s2 @ a|2_b~1_a~2_a~|_n~3_c~2_b~|1_z~2_a @ 1_3_c~2_2_a~2_2_a~4_2_b~4_2_b~6_1_a~7_1_z~8__n~.~1_3_c~2_2_a~2_2_a~3_2_b~3_2_b~4_1_a~5_1_z~6__n~.~
bag @ ic=a e00 p00 s1 s2 @ a|3_a~1_b~3_c~_d~ @ 1_3_a~1_3_c~3_1_b~4__d~.~1_3_a~1_3_c~2_1_b~3__d~.~
bag @ i=a R00 P00 s1 s2 @ a|1~1~1~1~1~2~|1~1~ @ 1_1~1_1~1_1~1_1~1_1~1_1~1_1~8_2~.~1_1~1_1~1_1~1_1~1_1~1_1~1_1~2_2~.~
bag @ i=a R00 p00 s1 s2 @ a|| @ .~.~
bag @ i=a R00 s1 @ a @ .~
bag @ ic=a R00 q1 f2 s3 @ a|2_b~1_a~2_a~|_n~3_c~2_b~|1_z~2_a @ 2_4~2_4~2_4~2_4~3_8~.~
bag @ ic=a R00 g1 c2 s3 @ a|2_b~1_a~2_a~|_n~3_c~2_b~|1_z~2_a @ 1_1~2_2~4_4~8_1~.~
bag @ ic=a R00 P11 s2 @ a|2_b~1_a~2_a~|_n~3_c~2_b~|1_z~2_a @ 1_1__n~2_2_1_a~2_2_1_z~3_4_2_a~3_4_2_a~3_4_2_b~3_4_2_b~4_8_3_c~.~
bag @ i=a R00 L10 L19 s2 s3 @ a|2~1~|3 @ .~1_1~2_2~3_3~.~
list @ ic=a R00 o102 L23 s3 @ a|2_b~1_a~2_a~|_n~3_c~2_b~|1_z~2_a @ 8_3_c~4_2_a~4_2_a~.~
bag @ c=a t0 g1 c2 e31 s4 @ a|the cat~the dog, the end~|cat~ @ 1_the_3~2_cat_2~3_dog_1~3_end_1~.~
bag @ ic=a ic=b h01 H01 s2 s3 @ a|1_x~_y~2_z~|1_t~;b|1_p~|_q~3_r~1_s~ @ 1_t_1_p~1_t_1_s~1_x_1_p~1_x_1_s~.~_y__~1_t_1_p~1_t_1_s~1_x_1_p~1_x_1_s~2_z__~.~
bag @ ic=a h00 d1 s2 @ a|1_x~_y~1_x~|1_z~ @ 1_x_1_x~1_x_1_z~1_z_1_x~1_z_1_z~.~
bag @ i=a i=b i=c h012 s3 @ a|1~2~2;b|2~3~2;c|~3~|2 @ 2_2_2~2_2_2~2_2_2~2_2_2~.~
bag @ i=a i=b H01 H10 h01 s2 s3 s4 @ a|;b|1~2 @ .~1_~2_~.~.~
bag @ i=a i=b H01 h01 s2 s3 @ a|1~;b @ 1_~.~.~
bag @ i=a i=b d0 d1 h23 s4 @ a|1~2~1;b|1~1~|2 @ 1_1~2_2~.~
bag @ i=a i=b u01 h20 H20 s3 s4 @ a|1~2~|3;b|2~||4~ @ 1_1~2_2~2_2~3_3~.~1_1~2_2~2_2~3_3~4_~.~
bag @ i=a i=b u01 H02 s3 @ a|1~2~|3;b|2~||4~ @ 1_1~2_2~2_2~3_3~.~
bag @ i=a i=b h01 H20 g3 c4 s5 s2 @ a|1~2~2;b|2~3~2 @ 2_8~.~2_2~2_2~2_2~2_2~.~
list @ ii=a ii=b h01 g2 S3 o41 L52 s6 @ a|1_2~2_2~|3_3~1_9~;b|1_5~2_6~|3_30~1_7 @ 1_4_22~2_1_2~.~
list @ ic=a O00 H10 o202 s3 @ a|2_b~1_a~|3_c~ @ 3_c_3_c~2_b_2_b~1_a_1_a~.~
bag @ ic=a ic=b x1 H02 R30 s4 @ a|1_x~_y~2_z~;b|1_p~|2_q~ @ 1__y__~2_1_x_1_p~3_2_z_2_q~.~ 3
bag @ ic=a ic=b x0 h21 s3 @ a|1_x~_y~2_z~;b|1_p~|2_q~ @ 1_x_1_p~2_z_2_q~.~ 3
";

/// A case: whether it is a list, its words, its inputs, and what is told of it.
fn parts(line: &str) -> (bool, &str, &str, &str) {
    let (kind, rest) = line.split_once(" @ ").unwrap_or((line, ""));
    let (words, rest) = rest.split_once(" @ ").unwrap_or((rest, ""));
    let (inputs, want) = rest.split_once(" @ ").unwrap_or((rest, ""));
    (kind == "list", words, inputs, want)
}

fn hosts_of(number: u32) -> u32 {
    match number % 3 {
        0 => 1,
        1 => 2,
        _ => 4,
    }
}

/// Each number of hosts with each split and each number of reducers, below 24.
fn turn(number: u32) -> Turn {
    let split = match number / 3 % 4 {
        0 => 1,
        1 => 2,
        2 => 7,
        _ => 1000,
    };
    Turn {
        hosts: hosts_of(number),
        split,
        reducers: if number < 12 { 1 } else { 3 },
        fails: &[],
    }
}

/// What comes of a case in a turn.
fn told<R: Threads + Sync + Abort>(rt: &R, alloc: Global, line: &str, turn: Turn) -> String {
    let (listed, words, texts, _) = parts(line);
    let plan = plan(rt, alloc, words);
    let inputs = inputs(rt, alloc, texts);
    let got = by_tasks(rt, alloc, &plan, &inputs, turn, listed);
    drop(plan);
    drop(inputs);
    got
}

/// A text with `~` for each LF and `_` for each tab.
fn marked<R: Abort>(rt: &R, alloc: Global, text: &str) -> String {
    let mut marked = String::new(alloc);
    for c in text.chars() {
        let c = match c {
            '\n' => '~',
            '\t' => '_',
            other => other,
        };
        marked.push(c).expect(rt, "memory");
    }
    marked
}

/// What comes of a case in a turn, as the case tells it.
fn got<R: Threads + Sync + Abort>(rt: &R, alloc: Global, line: &str, turn: Turn) -> String {
    let told = told(rt, alloc, line, turn);
    marked(rt, alloc, told.as_str())
}

#[test]
fn tasks_give_what_plans_mean(rt: HostRuntime) {
    for line in CASES.lines() {
        for number in 0..24 {
            let got = got(&rt, rt.alloc(), line, turn(number));
            assert_eq!(rt; got.as_str(), parts(line).3, "turn {number} of {line}");
        }
    }
}

/// So many hosts, of which the first fails at these reads.
fn failing(hosts: u32, fails: &'static [u64]) -> Turn {
    Turn {
        hosts,
        split: 7,
        reducers: 3,
        fails,
    }
}

/// The first reads.
const ALL: &[u64] = &[1, 2, 3, 4, 5, 6, 7, 8, 9, 10, 11, 12];

/// Those behind the first one.
const LATER: &[u64] = &[2, 3, 4, 5, 6, 7, 8, 9, 10, 11, 12];

/// The reads that fail.
fn fails(number: u32) -> &'static [u64] {
    match number {
        0 => &[1, 2, 3],
        1 => &[2, 4, 6],
        _ => ALL,
    }
}

#[test]
fn one_failing_host_of_two_changes_nothing(rt: HostRuntime) {
    for line in CASES.lines() {
        for number in 0..3 {
            let turn = failing(2, fails(number));
            let got = got(&rt, rt.alloc(), line, turn);
            assert_eq!(rt; got.as_str(), parts(line).3, "failures {number} of {line}");
        }
    }
}

#[test]
fn the_only_host_always_fails(rt: HostRuntime) {
    let line = "bag @ i=a d0 s1 @ a|1~2~";
    let got = told(&rt, rt.alloc(), line, failing(1, ALL));
    assert_eq!(rt; got.as_str(), "wave 0 failed at 0, 4 times; 1 ended");
}

#[test]
fn the_only_host_fails_after_its_first_read(rt: HostRuntime) {
    let line = "bag @ i=a i=b d0 d1 s2 s3 @ a|1~2~;b|3~";
    let got = told(&rt, rt.alloc(), line, failing(1, LATER));
    assert_eq!(rt; got.as_str(), "wave 2 failed at 0, 4 times; 3 ended");
}

/// Its first read is of what is copied.
#[test]
fn copies_come_before_probes(rt: HostRuntime) {
    let line = "bag @ i=a i=b h01 s2 @ a|1~2~;b|2~";
    let got = told(&rt, rt.alloc(), line, failing(1, LATER));
    assert_eq!(rt; got.as_str(), "wave 1 failed at 0, 4 times; 2 ended");
}

/// Whether two lines are told, which are two of those that are told behind a line `.`, and again the same.
fn keeps_two(told: &str) -> bool {
    let (first, rest) = told.split_once(".\n").unwrap_or((told, ""));
    let (second, all) = rest.split_once(".\n").unwrap_or((rest, ""));
    let (one, left) = first.split_once('\n').unwrap_or((first, ""));
    let (other, left) = left.split_once('\n').unwrap_or((left, ""));
    left.is_empty() && one != other && has_line(all, one) && has_line(all, other) && first == second
}

fn has_line(text: &str, wanted: &str) -> bool {
    for line in text.lines() {
        if line == wanted {
            return true;
        }
    }
    false
}

#[test]
fn bare_limits_keep_any_rows(rt: HostRuntime) {
    let line = "bag @ ic=a L02 s1 s1 s0 @ a|3_x~1_y~|2_z~4_t^~";
    for number in 0..24 {
        let got = told(&rt, rt.alloc(), line, turn(number));
        assert!(rt; keeps_two(got.as_str()), "turn {number}: {got}");
    }
}
