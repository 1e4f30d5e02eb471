// The pairs of pages of a section.
use plan_pages::pair;

// The number of pages, the pair, its left page and its right page.
#[rattlefmt::skip]
const PAIRS: [(u32, u32, u32, u32); 36] = [
    (2, 1, 2, 1),
    (4, 1, 4, 1), (4, 2, 2, 3),
    (6, 1, 6, 1), (6, 2, 2, 5), (6, 3, 4, 3),
    (8, 1, 8, 1), (8, 2, 2, 7), (8, 3, 6, 3), (8, 4, 4, 5),
    (10, 1, 10, 1), (10, 2, 2, 9), (10, 3, 8, 3), (10, 4, 4, 7), (10, 5, 6, 5),
    (12, 1, 12, 1), (12, 2, 2, 11), (12, 3, 10, 3), (12, 4, 4, 9), (12, 5, 8, 5), (12, 6, 6, 7),
    (14, 1, 14, 1), (14, 2, 2, 13), (14, 3, 12, 3), (14, 4, 4, 11), (14, 5, 10, 5),
    (14, 6, 6, 9), (14, 7, 8, 7),
    (16, 1, 16, 1), (16, 2, 2, 15), (16, 3, 14, 3), (16, 4, 4, 13),
    (16, 5, 12, 5), (16, 6, 6, 11), (16, 7, 10, 7), (16, 8, 8, 9),
];

#[test]
fn pairs_of_sections_of_2_to_16_pages(rt: HostRuntime) {
    for (n, j, left, right) in PAIRS {
        assert!(rt; n % 2 == 0 && 1 <= j && j <= n / 2);
        let pages = pair(n, j);
        assert!(rt;
            pages.0 == left && pages.1 == right,
            "pair {j} of {n} pages"
        );
    }
}
