// How a board looks, which is the same whatever a forecast tells.

/// How bars stand, on a narrow screen and on paper too.
pub(crate) const STYLE_END: &str = "\
.t{position:relative;width:45%;min-width:12rem}\n\
.t *{position:absolute;left:calc(var(--p)*.1%)}\n\
.t span{white-space:nowrap;bottom:.1rem;padding-left:.3rem;border-left:1px solid var(--soft)}\n\
.bar{top:.35rem;height:1rem;width:calc(var(--w)*.1%);min-width:3px;background:var(--go);border-radius:3px}\n\
.bar[style$=\":0\"]{display:none}\n\
.late .bar{background:var(--bad)}\n\
.never .bar{border:2px dashed var(--bad);background:none}\n\
.by{top:0;bottom:0;border-left:4px solid var(--ink)}\n\
.t+*{padding-left:.9rem}\n\
footer{padding:0 1rem .6rem}\n\
@media screen and (max-width:60rem){h1{font-size:3rem}.t{display:none}.t+*{padding-left:0}}\n\
@media (min-width:30rem){td:not(:nth-child(4)){white-space:nowrap}}\n\
@media (min-width:60rem) and (max-width:90rem),(min-width:115rem){section:not(.wide) tbody small{display:block}}\n\
@media screen and (max-width:30rem){main{padding:1rem .6rem}table{font-size:.9rem}th,td{padding-right:.4rem}thead th{min-width:3.1rem;font-size:.75rem}tbody th{white-space:normal}tbody small{display:block;white-space:nowrap;font-size:.75rem}}\n\
@media print{@page{margin:10mm}:root{--ink:#000;--soft:#444;--line:#bbb;--back:#fff;--go:#0a5f9e;--bad:#a8321a;--on:#fff}body{font-size:10px;print-color-adjust:exact;-webkit-print-color-adjust:exact}header,main,footer{padding-left:0;padding-right:0}tr{break-inside:avoid}h2{break-after:avoid}}\n";
