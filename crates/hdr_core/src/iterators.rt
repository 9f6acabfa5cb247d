//! The iterators over a histogram, their items, and what a picker is. An iterator is made over a histogram, by its calls or
//! by a picker's `new`.

pub use hdr_iterators::{
    HistogramIterator, IterationValue, PickMetadata, PickyIterator, all, laws, linear, log,
    quantile, recorded,
};
