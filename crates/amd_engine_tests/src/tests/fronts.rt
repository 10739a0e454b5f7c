// The shares of a front in the figures, and their sums. The expected numbers are sums over columns, worked by hand
// and by an independent program.

use amd_engine::internal::front_counts;
use amd_testing::check;
use amd_testing::records::numbers_of;
use amd_types::amd::Info;
use amd_types::figures::Figures;

/// A front, and its shares.
#[derive(Drop)]
struct FrontCase {
    rows: usize,
    outside: usize,
    shares: [usize; 3],
}

/// Fronts with their shares: the last one's all pass the greatest count, and of the one before only the last does.
static FRONTS: [FrontCase; 6] = [
    FrontCase {
        rows: 0,
        outside: 5,
        shares: [0, 0, 0],
    },
    FrontCase {
        rows: 1,
        outside: 2,
        shares: [2, 3, 4],
    },
    FrontCase {
        rows: 3,
        outside: 0,
        shares: [3, 4, 5],
    },
    FrontCase {
        rows: 18,
        outside: 0,
        shares: [153, 969, 1785],
    },
    FrontCase {
        rows: 1,
        outside: 4294967296,
        shares: [4294967296, 9223372039002259456, usize::MAX],
    },
    FrontCase {
        rows: 9223372036854775808,
        outside: 0,
        shares: [usize::MAX, usize::MAX, usize::MAX],
    },
];

#[test]
fn shares_of_a_front(rt: HostRuntime) {
    for case in &FRONTS {
        let (lnz, ldl, lu) = front_counts(case.rows, case.outside);
        let is_same = [lnz, ldl, lu] == case.shares;
        assert!(rt; is_same, "{} {}", case.rows, case.outside);
    }
}

/// Two fronts of a full matrix with four rows, and then one whose share of `n_mult_subs_lu` passes the greatest count.
#[test]
fn sums_of_fronts(rt: HostRuntime) {
    let mut figures = Figures {
        lnz: 0,
        n_mult_subs_ldl: 0,
        n_mult_subs_lu: 0,
        d_max: 1,
    };
    let mut info = Info::new(4);
    info.nz = 12;
    figures.add_front(1, 3);
    figures.add_front(3, 0);
    figures.write_figures(&mut info);
    check!(&rt; numbers_of(&info) == [4, 12, 0, 0, 0, 0, 6, 6, 10, 14, 4]);
    figures.add_front(1, 4294967296);
    figures.write_figures(&mut info);
    let (lnz, ldl, lu) = (4294967302, 9223372039002259466, usize::MAX);
    check!(&rt; numbers_of(&info) == [4, 12, 0, 0, 0, 0, lnz, lnz, ldl, lu, 4294967297]);
}
